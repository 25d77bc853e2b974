// A frame: what one firing reads and writes.
ghost use Rattle.std.specs.Prelude.{◌≡◌, [], ℤ, ℕ, ◌^◌, ◌<◌, List, length, map, replicate, slice_set, slice_index_or, IfOk, pos};
ghost use Rattle.std.specs.Borrow.{sem};
ghost use Rattle.kernel_gate.specs.Value.{lengths, port, with_output};
ghost use Rattle.kernel_gate.specs.Framed.{frame_of};
ghost use Rattle.kernel_gate.specs.Leased.{AreWhole};
ghost use Rattle.split_block.specs.View.{LeasePlace};

use crate::leases::{put_lists, spend, zeros};
use crate::room::{Room, RoomSize};
use sdf_level::List;
use split_block::Lease;
use std::alloc::{AllocError, Global};
use std::marker::Model;

/// What one firing reads and writes: the place of its kernel, the arguments, a lease of cells for the tokens of each
/// input and each output port, and a value for each parameter that it sets. It is neither `Drop` nor `Clone`: who has
/// it hands it on. It is one box, so that it moves cheaply.
pub struct Frame {
    lent: Box<Lent>,
}

/// What a frame is made of, and what it holds: the place of the kernel, the arguments, the leases of its input and output
/// ports, and the values of the parameters that it sets. It must be spent, as its leases must.
pub struct Lent {
    pub kind: u32,
    pub args: Vec<i64>,
    pub inputs: Vec<Lease>,
    pub outputs: Vec<Lease>,
    pub sets: Vec<i64>,
}

impl Model for Frame {
    ghost use Rattle.kernel_gate.specs.Value.{FrameView};

    ghost Value = { FrameView };

    ghost use Rattle.kernel_gate.specs.Framed.{frame_of};

    ghost view = { λ f. frame_of f.lent.value };
}

impl Frame {
    ghost use Rattle.kernel_gate.specs.Lending.{LendsOutput};

    /// A frame with these arguments and inputs, and with outputs of these lengths and so many sets, all 0. Each port is
    /// a block of its own.
    pub fn start(
        alloc: Global,
        kind: u32,
        args: List<i64>,
        inputs: List<List<i64>>,
        outputs: &[u32],
        sets: u32,
    ) -> Result<Frame, AllocError>
        ensures made_of { IfOk result (λ f. (f.kind ≡ kind) × (f.args ≡ args) × (f.inputs ≡ inputs)) }
        ensures zeros { IfOk result (λ f. (f.outputs ≡ map (λ n. replicate n (pos 0)) outputs.now) × (f.sets ≡ replicate sets (pos 0))) }
        ensures whole { IfOk result (λ f. AreWhole f.places) }
    {
        let lists = zeros(alloc, outputs)?;
        let sets = vec![in alloc; 0i64; sets as usize]?;
        let size = RoomSize {
            inputs: inputs.items().len(),
            outputs: lists.len(),
            args: 0,
        };
        let mut lent = Room::start(alloc, size)?.open();
        let parts: &mut Lent = &mut lent;
        parts.kind = kind;
        parts.args = args.into_items();
        parts.sets = sets;
        put_lists(&mut parts.inputs, inputs.into_items());
        put_lists(&mut parts.outputs, lists);
        Ok(Frame { lent })
    }

    /// The frame that is made of this. It takes no memory.
    pub fn lend(lent: Box<Lent>) -> Frame
        ensures { result ≡ frame_of lent.value }
    {
        Frame { lent }
    }

    /// What the frame is made of: the leases, each where it lay and with what the frame holds, the arguments and the sets. It
    /// takes no memory.
    pub fn take_back(self) -> Box<Lent>
        ensures { self ≡ frame_of result.value }
    {
        let Frame { lent } = self;
        lent
    }

    /// The place of its kernel.
    pub fn kind(&self) -> u32
        ensures { result ≡ self.now.kind }
    {
        self.lent.kind
    }

    /// The arguments, in the order of the kernel's row.
    pub fn args(&self) -> &[i64]
        ensures { result.now ≡ self.now.args }
    {
        self.lent.args.as_slice()
    }

    /// The number of input ports.
    pub fn inputs(&self) -> u32
        requires { length self.now.inputs < 2 ^ 32 }
        ensures { result ≡ length self.now.inputs }
    {
        self.lent.inputs.len() as u32
    }

    /// The tokens of an input port, the oldest first.
    pub fn input(&self, port: u32) -> &[i64]
        requires { port < length self.now.inputs }
        ensures { result.now ≡ slice_index_or self.now.inputs port [] }
    {
        self.lent.inputs[port as usize].as_slice()
    }

    /// The number of output ports.
    pub fn outputs(&self) -> u32
        requires { length self.now.outputs < 2 ^ 32 }
        ensures { result ≡ length self.now.outputs }
    {
        self.lent.outputs.len() as u32
    }

    /// The number of tokens of an output port.
    pub fn output_len(&self, port: u32) -> usize
        requires { port < length self.now.outputs }
        ensures { result ≡ length (slice_index_or self.now.outputs port []) }
    {
        self.lent.outputs[port as usize].as_slice().len()
    }

    /// The tokens of an output port, to be written. Its length never changes.
    pub fn output(&mut self, port: u32) -> &mut [i64]
        requires { port < length self.old.outputs }
        ensures* writes_back { sem 𝓛 (LendsOutput self.entry port result) }
        ensures value { result.now ≡ slice_index_or self.old.outputs port [] }
    {
        let lent: &mut Lent = &mut self.lent;
        lent.outputs[port as usize].as_mut_slice()
    }

    /// The arguments, the tokens of an input port, and the tokens of an output port, to be written, at once.
    pub fn ports(&mut self, from: u32, to: u32) -> (&[i64], &[i64], &mut [i64])
        requires from { from < length self.old.inputs }
        requires to { to < length self.old.outputs }
        ensures* writes_back { sem 𝓛 (LendsOutput self.entry to result.2) }
        ensures args { result.0.now ≡ self.old.args }
        ensures input { result.1.now ≡ slice_index_or self.old.inputs from [] }
        ensures output { result.2.now ≡ slice_index_or self.old.outputs to [] }
    {
        let lent: &mut Lent = &mut self.lent;
        (
            lent.args.as_slice(),
            lent.inputs[from as usize].as_slice(),
            lent.outputs[to as usize].as_mut_slice(),
        )
    }

    /// The tokens of two input ports, and of an output port, to be written, at once.
    pub fn pair_and_output(
        &mut self,
        first: u32,
        second: u32,
        to: u32,
    ) -> (&[i64], &[i64], &mut [i64])
        requires first { first < length self.old.inputs }
        requires second { second < length self.old.inputs }
        requires to { to < length self.old.outputs }
        ensures* writes_back { sem 𝓛 (LendsOutput self.entry to result.2) }
        ensures first { result.0.now ≡ slice_index_or self.old.inputs first [] }
        ensures second { result.1.now ≡ slice_index_or self.old.inputs second [] }
        ensures output { result.2.now ≡ slice_index_or self.old.outputs to [] }
    {
        let lent: &mut Lent = &mut self.lent;
        let inputs = &lent.inputs;
        (
            inputs[first as usize].as_slice(),
            inputs[second as usize].as_slice(),
            lent.outputs[to as usize].as_mut_slice(),
        )
    }

    /// Each output is as long as the lease at its place. It does nothing.
    pub fn outputs_fill_leases(&self)
        ensures { lengths self.now.outputs ≡ map (λ (p : LeasePlace). p.len) self.now.places.outputs }
    {
        // What is read shows the proof what the frame is made of.
        let _kind = self.lent.kind;
    }

    /// The values of the parameters that it sets.
    pub fn sets(&self) -> &[i64]
        ensures { result.now ≡ self.now.sets }
    {
        self.lent.sets.as_slice()
    }

    /// Sets the parameter at a place to a value.
    pub fn set(&mut self, place: u32, value: i64)
        requires { place < length self.old.sets }
        ensures { self.new ≡ record self.old { sets = slice_set self.old.sets place value } }
    {
        self.lent.sets[place as usize] = value;
    }

    /// Gives up the frame.
    pub fn end(self)
        requires whole { AreWhole self.places }
    {
        let Frame { lent } = self;
        let Lent {
            kind: _,
            args: _,
            inputs,
            outputs,
            sets: _,
        } = Box::into_inner(lent);
        spend(inputs);
        spend(outputs);
    }
}
