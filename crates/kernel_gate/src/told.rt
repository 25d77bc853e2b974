// A frame as clauses see it.
ghost use Rattle.std.specs.Prelude.{◌≡◌};
ghost use base.Fml.{ftrue};
ghost use Rattle.kernel_gate.specs.Value.{FrameView};

use crate::frame::Frame;
use std::marker::Model;

/// What a frame was when it was looked at, as data of proofs alone. It has no bytes.
#[derive(Drop)]
pub struct Told {
    pub ghost frame: { FrameView },
}

impl Model for Told {
    ghost also_owns = { λ _. ftrue };
}

/// What the frame is. It does nothing.
pub fn told_of(frame: &Frame) -> Told
    ensures { result.frame ≡ frame.now }
{
    let _ = frame;
    Told {}
}
