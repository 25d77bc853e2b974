// The signatures with which a board was started, as clauses see them.
ghost use Rattle.std.specs.Prelude.{◌≡◌, map};
ghost use Rattle.kernel_gate.specs.Signed.{counts_of};
ghost use Rattle.firing_board.specs.Signatures.{counts_by, counts_in};

use kernel_gate::Signature;
use std::snapshot::Snapshot;

/// A signature without its name.
#[derive(Clone, Copy)]
pub(crate) struct Numbers {
    config: bool,
    args_min: u32,
    args_max: u32,
    ins: u32,
    outs: u32,
    sets_min: u32,
    sets_max: u32,
}

/// A signature without its name.
fn numbers_of(signature: &Signature) -> Numbers
    ensures { counts_in result ≡ counts_of signature.now }
{
    Numbers {
        config: signature.config,
        args_min: signature.args_min,
        args_max: signature.args_max,
        ins: signature.ins,
        outs: signature.outs,
        sets_min: signature.sets_min,
        sets_max: signature.sets_max,
    }
}

/// Signatures in their order, which no code can read. However many they are, it has the bytes of a variant.
#[derive(Drop)]
pub(crate) enum Signatures {
    Nothing,
    /// One after others.
    Then {
        before: Snapshot<Signatures>,
        last: Snapshot<Numbers>,
    },
}

impl Signatures {
    /// These signatures.
    pub(crate) fn of(signatures: &[Signature]) -> Signatures
        ensures { counts_by result ≡ map counts_of signatures.now }
    {
        let mut seen = Signatures::Nothing;
        for signature in signatures {
            let last = numbers_of(signature);
            seen = Signatures::Then {
                before: Snapshot::of(&seen),
                last: Snapshot::of(&last),
            };
        }
        seen
    }
}
