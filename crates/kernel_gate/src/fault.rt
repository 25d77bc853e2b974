/// A kernel's refusal of what stands in its frame, by its code.
#[derive(Clone, Copy, Debug, PartialEq, Eq)]
pub struct KernelFault {
    /// 1 Overflow, 2 Division, 3 Shape or 4 Value.
    pub code: u8,
}

impl KernelFault {
    /// A product, a sum, a difference or a quotient lies outside i64.
    pub const OVERFLOW: KernelFault = KernelFault { code: 1 };

    /// A divisor is 0.
    pub const DIVISION: KernelFault = KernelFault { code: 2 };

    /// The lengths of the inputs, outputs or sets don't fit the kernel.
    pub const SHAPE: KernelFault = KernelFault { code: 3 };

    /// An argument or a token isn't one that the kernel takes.
    pub const VALUE: KernelFault = KernelFault { code: 4 };
}
