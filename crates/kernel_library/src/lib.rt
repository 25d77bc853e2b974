//! The gate over all kernels: each at its place of the table.
#![tactic(auto)]

mod signatures;

use crate::signatures::SIGNATURES;
use kernel_gate::{Frame, Gate, KernelFault, Signature, lengths_given};
use kernel_set::{
    add, clamp, count_above, div, dot, down, dup, fir, gain, histogram, max, mean, median, min,
    moving, mul, pass, pick, ramp, read_param, spread, sub, sum, threshold, transpose, up,
};

/// The kernels, each at its place of the table: a frame of kind `k` is fired by the kernel whose signature is the
/// `k`th, from 0. A fault has the kernel's code.
#[derive(Clone, Copy, Debug)]
pub struct Library;

impl Gate for Library {
    ghost use Rattle.kernel_gate.specs.Table.{the_signatures};

    ghost kernels = { λ _. the_signatures };

    fn signatures(&self) -> &[Signature] {
        lengths_given();
        &SIGNATURES
    }

    #[tactic(auto, unfolding(kernel_gate::specs::Table::the_value))]
    fn fire(&self, frame: &mut Frame) -> Result<(), KernelFault> {
        match frame.kind() {
            0 => pass(frame),
            1 => dup(frame),
            2 => gain(frame),
            3 => add(frame),
            4 => sub(frame),
            5 => mul(frame),
            6 => div(frame),
            7 => min(frame),
            8 => max(frame),
            9 => clamp(frame),
            10 => sum(frame),
            11 => mean(frame),
            12 => dot(frame),
            13 => fir(frame),
            14 => up(frame),
            15 => down(frame),
            16 => ramp(frame),
            17 => transpose(frame),
            18 => median(frame),
            19 => moving(frame),
            20 => threshold(frame),
            21 => histogram(frame),
            22 => count_above(frame),
            23 => read_param(frame),
            24 => pick(frame),
            25 => spread(frame),
            _ => unreachable!(),
        }
    }
}
