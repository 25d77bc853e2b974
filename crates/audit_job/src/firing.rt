// What kernels and nodes that copy answer.
ghost use Rattle.std.specs.Prelude.{◌≡◌, ◌≤◌, ◌<◌, ◌^◌, [], IfOk, length, vec_capacity};
ghost use Rattle.job_rules.specs.Doing.{IsCopied};
ghost use Rattle.job_rules.specs.Words as words;
ghost use Rattle.kernel_gate.specs.Leased.{AreWhole};
ghost use Rattle.kernel_gate.specs.Value.{lengths};
ghost use Rattle.pisdf_meaning.specs.Kernels.{fired_answer};
ghost use Rattle.special_actors.specs.Fitting.{HasLengths};
ghost use Rattle.audit_job.specs.Marks.{answer_of};

use crate::answer::Answer;
use kernel_gate::{Frame, Lent, spend};
use param_expr::Name;
use pisdf_meaning::{Cause, Given, KernelEnd, Path, Refusal, copy_name, lists_of_leases};
use sdf_level::{List, Node};
use special_actors::run_special;
use std::alloc::{AllocError, Global};

/// What firing `turn` of an actor answers whose kernel ended so, in the job with this path.
pub(crate) fn fired(
    alloc: Global,
    path: &Path,
    actor: &Name,
    turn: u32,
    end: KernelEnd,
) -> Result<Answer, AllocError>
    ensures { IfOk result (λ a. answer_of a ≡ words.fired record { path = path.now; name = actor.now; turn = turn } (fired_answer end)) }
{
    match end {
        KernelEnd::Gave { outs, sets } => Ok(Answer::Gives(Given {
            outs,
            state: List::new(Vec::new(alloc)),
            trace: List::new(Vec::new(alloc)),
            exports: sets,
        })),
        KernelEnd::Faulted(code) => Ok(Answer::Refuses(Refusal {
            path: path.copy()?,
            cause: Cause::Kernel {
                actor: copy_name(alloc, actor)?,
                firing: turn,
                code,
            },
        })),
    }
}

/// What stands in the outputs of a frame, which is given up: `lists` is empty, and has room for them.
fn outputs_of(frame: Frame, lists: Vec<List<i64>>) -> List<List<i64>>
    requires whole { AreWhole frame.places }
    requires empty { lists.items ≡ [] }
    requires room { length frame.outputs ≤ vec_capacity lists }
    ensures { result ≡ frame.outputs }
{
    let Lent {
        kind: _,
        args: _,
        inputs,
        outputs,
        sets: _,
    } = Box::into_inner(frame.take_back());
    spend(inputs);
    lists_of_leases(outputs, lists)
}

/// What a node answers that passes on what it reads.
pub(crate) fn passed(alloc: Global, read: List<List<i64>>) -> Answer
    ensures { answer_of result ≡ words.Gives (words.given_outs read) }
{
    Answer::Gives(Given {
        outs: read,
        state: List::new(Vec::new(alloc)),
        trace: List::new(Vec::new(alloc)),
        exports: List::new(Vec::new(alloc)),
    })
}

/// What a node answers that copies what it reads to outputs of these lengths.
pub(crate) fn copied(
    alloc: Global,
    node: Node,
    read: List<List<i64>>,
    written: &[u32],
) -> Result<Answer, AllocError>
    requires fit { HasLengths node (lengths read) written.now }
    requires few_inputs { length read < 2 ^ 32 }
    requires few_outputs { length written.now < 2 ^ 32 }
    ensures { IfOk result (λ a. IsCopied node read written.now (answer_of a)) }
{
    let lists = Vec::with_capacity(alloc, written.len())?;
    let args = List::new(Vec::new(alloc));
    let mut frame = Frame::start(alloc, 0, args, read, written, 0)?;
    run_special(&node, &mut frame);
    let outs = outputs_of(frame, lists);
    Ok(Answer::Gives(Given {
        outs,
        state: List::new(Vec::new(alloc)),
        trace: List::new(Vec::new(alloc)),
        exports: List::new(Vec::new(alloc)),
    }))
}
