// Whether actors fit the signatures of their kernels.
ghost use Rattle.std.specs.Prelude.{◌≡◌, map, slice_get};
ghost use Rattle.std.specs.Option.{option_copied};
ghost use Rattle.kernel_gate.specs.Signed.{counts_of, signature_view};
ghost use Rattle.graph_format.specs.Faults.{fit_counts, fit_signature, fits_kernel};

use kernel_gate::Signature;
use pisdf_model::{Body, Counts};

/// The signatures that kernels are places of.
#[derive(Drop)]
pub(crate) struct Signatures<'a> {
    pub(crate) all: &'a [Signature],
}

fn fits_counts(signature: &Signature, args: usize, ins: usize, outs: usize, sets: usize) -> bool
    ensures { result ≡ fit_counts (counts_of signature.now) args ins outs sets }
{
    (signature.args_min as usize <= args && args <= signature.args_max as usize)
        && ins == signature.ins as usize
        && outs == signature.outs as usize
        && (signature.sets_min as usize <= sets && sets <= signature.sets_max as usize)
}

impl Signatures<'_> {
    /// Whether a kernel takes and gives so many.
    fn fit_kernel(&self, kernel: u32, args: usize, ins: usize, outs: usize, sets: usize) -> bool
        ensures { result ≡ fit_signature (slice_get (map signature_view self.now.all.now) kernel) args ins outs sets }
    {
        match self.all.get(kernel as usize) {
            Some(signature) => fits_counts(signature, args, ins, outs, sets),
            None => false,
        }
    }
}

impl Counts for Signatures<'_> {
    ghost use Rattle.std.specs.Prelude.{map};
    ghost use Rattle.kernel_gate.specs.Signed.{signature_view};
    ghost use Rattle.graph_format.specs.Faults.{fits_kernel};

    ghost fits = { λ s body. fits_kernel (map signature_view s.all.now) body };

    fn fit(&self, body: &Body) -> bool {
        match body {
            Body::Kernel {
                kernel,
                args,
                ins,
                outs,
            } => self.fit_kernel(
                *kernel,
                args.items().len(),
                ins.items().len(),
                outs.items().len(),
                0,
            ),
            Body::Config {
                kernel,
                args,
                ins,
                outs,
                sets,
            } => self.fit_kernel(
                *kernel,
                args.items().len(),
                ins.items().len(),
                outs.items().len(),
                sets.items().len(),
            ),
            Body::Child { .. } | Body::ConfigChild { .. } => true,
        }
    }
}
