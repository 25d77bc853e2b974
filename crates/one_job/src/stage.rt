ghost use Rattle.std.specs.Prelude.{◌≡◌, ◌<◌, ◌^◌, length};
ghost use Rattle.one_job.specs.Staged.{stage_with};
ghost use Rattle.one_job.specs.Faults.{first_failure};

use kernel_gate::{KernelFault, Told};

/// How far a node of a job is.
#[derive(Drop)]
pub(crate) enum Stage {
    Free,
    /// Its frame is out, as it was handed out.
    Claimed(Told),
    /// Its frame came back with its outputs.
    Finished(Told),
    /// Its kernel refused with this code.
    Failed(u8),
}

/// How far a node is whose frame came back so, with this result of its firing.
pub(crate) fn ended_stage(told: Told, answer: Result<(), KernelFault>) -> Stage
    ensures { result ≡ stage_with told answer }
{
    match answer {
        Ok(()) => Stage::Finished(told),
        Err(fault) => Stage::Failed(fault.code),
    }
}

/// The least number of a node that failed, and its code.
pub(crate) fn first_fault(stages: &[Stage]) -> Option<(u32, u8)>
    requires { length stages.now < 2 ^ 32 }
    ensures { result ≡ first_failure stages.now }
{
    for n in 0..stages.len() {
        if let Stage::Failed(code) = &stages[n] {
            return Some((n as u32, *code));
        }
    }
    None
}
