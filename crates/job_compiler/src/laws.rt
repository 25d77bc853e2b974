// The law of compilations, for whoever proves something above them. The function does nothing; its contract is the law.
ghost use Rattle.std.specs.Prelude.{◌≡◌};
ghost use Rattle.job_compiler.specs.Compilation.{Compilation, IsCompiled};

/// Two compilations of one level for as many workers are the same.
pub fn one_compilation()
    ensures { (one other : Compilation) → IsCompiled one → IsCompiled other → one.level ≡ other.level → one.workers ≡ other.workers → one ≡ other }
{}
