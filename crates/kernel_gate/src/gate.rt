// The trait of a set of kernels.
ghost use Rattle.std.specs.Prelude.{◌≡◌, ◌<◌, ◌^◌, length, map};
ghost use Rattle.kernel_gate.specs.Laws.{GiveLengths};
ghost use Rattle.kernel_gate.specs.Table.{frame_value};
ghost use Rattle.kernel_gate.specs.Signed.{IsFrameOf, signature_view, unnamed};
ghost use Rattle.kernel_gate.specs.Value.{SameFrame, told_by};

use crate::fault::KernelFault;
use crate::frame::Frame;
use crate::signature::Signature;

/// A set of kernels, each at its place: a frame of kind `k` is fired by the kernel at place `k`.
pub trait Gate {
    ghost use Rattle.std.specs.Prelude.{List};
    ghost use Rattle.kernel_gate.specs.Signed.{SignatureView};

    /// The signatures of the kernels, in the order of their places.
    ghost kernels: { Self → List SignatureView };

    /// The signatures of the kernels, in the order of their places. Each gives as many tokens as it is asked for.
    fn signatures(&self) -> &[Signature]
        ensures kernels { map signature_view result.now ≡ kernels self.now }
        ensures few { length result.now < 2 ^ 32 }
        ensures lengths { GiveLengths (unnamed (kernels self.now)) };

    /// Fires the frame's kernel: its outputs and sets are then the kernel's. An `Err` has the kernel's code, and
    /// leaves any tokens in the outputs and any values in the sets.
    fn fire(&self, frame: &mut Frame) -> Result<(), KernelFault>
        requires { IsFrameOf (unnamed (kernels self.now)) frame.old }
        ensures same { SameFrame frame.old frame.new }
        ensures value { told_by frame.new result ≡ frame_value frame.old };
}
