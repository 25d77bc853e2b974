// Laws of the kernels, for whoever proves something above them. The function does nothing; its contract is the law.
ghost use Rattle.kernel_gate.specs.Laws.{GiveLengths};
ghost use Rattle.kernel_gate.specs.Signed.{unnamed};
ghost use Rattle.kernel_gate.specs.Table.{the_signatures};

/// What a kernel gives is as long as it was asked for: each output has its length, and as many parameters are set as there
/// are to set.
pub fn lengths_given()
    ensures { GiveLengths (unnamed the_signatures) }
{}
