// What is told of a run.
ghost use Rattle.std.specs.Prelude.{◌^◌, ◌<◌, length};
ghost use Rattle.board_calls.specs.Holding.{CopiesFew};

use crate::held::Held;
use case_rows::Trouble;
use job_preparing::CompileEnd;
use kernel_gate::{Frame, KernelFault};
use std::alloc::Global;
use std::fmt::Write;

/// What is told of a run, by lines.
#[derive(Drop)]
pub(crate) struct Told {
    /// The texts of the iterations.
    pub(crate) out: String,
    /// Why the run ended early.
    pub(crate) err: String,
    /// The entries of the journals.
    pub(crate) journal: String,
    /// Each claim and finish, where they are asked for.
    pub(crate) steps: String,
    pub(crate) has_steps: bool,
    /// For each claim of a compilation whether it came with one that was kept.
    pub(crate) kept: String,
    /// The most jobs that were open after a step.
    pub(crate) open: usize,
}

impl Told {
    /// Nothing is told yet.
    pub(crate) fn new(alloc: Global, has_steps: bool) -> Told {
        Told {
            out: String::new(alloc),
            err: String::new(alloc),
            journal: String::new(alloc),
            steps: String::new(alloc),
            has_steps,
            kept: String::new(alloc),
            open: 0,
        }
    }

    /// Tells how many jobs are open.
    pub(crate) fn see_open(&mut self, open: usize) {
        self.open = self.open.max(open);
    }

    /// Tells what a worker got that claimed, and where that is nothing, whether all is done.
    pub(crate) fn see_claim(&mut self, worker: u32, held: &Held, done: bool) -> Result<(), Trouble>
        requires { CopiesFew held.now }
    {
        if let Held::Compile(_, task) = held {
            let word = if task.has_kept() { "true\n" } else { "false\n" };
            self.kept.push_str(word)?;
        }
        if !self.has_steps {
            return Ok(());
        }
        push_claim(&mut self.steps, worker, held, done)
    }

    /// Tells how a worker gives back a frame: with the values that it sets, or with the fault of its kernel.
    pub(crate) fn see_answer(
        &mut self,
        worker: u32,
        frame: &Frame,
        answer: Result<(), KernelFault>,
    ) -> Result<(), Trouble> {
        if !self.has_steps {
            return Ok(());
        }
        match answer {
            Ok(()) => {
                write!(self.steps, "{worker} gives")?;
                push_tokens(&mut self.steps, frame.sets())?;
            }
            Err(fault) => write!(self.steps, "{worker} fails {}", fault.code)?,
        }
        self.steps.push_str("\n")?;
        Ok(())
    }

    /// Tells how a compilation ended that a worker made.
    pub(crate) fn see_end(&mut self, worker: u32, end: &CompileEnd) -> Result<(), Trouble> {
        if !self.has_steps {
            return Ok(());
        }
        let word = match end {
            CompileEnd::Ready(_) => "is ready",
            CompileEnd::Refused(_) => "is refused",
            CompileEnd::Memory => "has no memory",
        };
        write!(self.steps, "{worker} {word}\n")?;
        Ok(())
    }
}

fn push_tokens(text: &mut String, tokens: &[i64]) -> Result<(), Trouble> {
    for token in tokens {
        write!(text, " {token}")?;
    }
    Ok(())
}

fn push_inputs(text: &mut String, frame: &Frame) -> Result<(), Trouble>
    requires { length frame.now.inputs < 2 ^ 32 }
{
    for port in 0..frame.inputs() {
        text.push_str(" |")?;
        push_tokens(text, frame.input(port))?;
    }
    text.push_str("\n")?;
    Ok(())
}

/// Appends what a worker got that claimed: with the tokens of a node that copies, and with the number of the claim among the entries of the journal.
fn push_claim(text: &mut String, worker: u32, held: &Held, done: bool) -> Result<(), Trouble>
    requires { CopiesFew held.now }
{
    match held {
        Held::Nothing => {
            let word = if done { "is done" } else { "waits" };
            write!(text, "{worker} {word}\n")?;
        }
        Held::Fire(ticket, frame) => {
            write!(text, "{} {worker} fires {}\n", ticket.entry, frame.kind())?;
        }
        Held::Configure(ticket, frame) => {
            write!(
                text,
                "{} {worker} configures {}\n",
                ticket.entry,
                frame.kind()
            )?;
        }
        Held::Copy(ticket, _, frame) => {
            write!(text, "{} {worker} copies", ticket.entry)?;
            push_inputs(text, frame)?;
        }
        Held::Compile(ticket, _) => write!(text, "{} {worker} compiles\n", ticket.entry)?,
    }
    Ok(())
}
