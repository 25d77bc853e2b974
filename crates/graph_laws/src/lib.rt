//! A law of graph files, for whoever runs the graphs that are read from them. The function does nothing; its contract is the
//! law.
#![tactic(auto)]

ghost use Rattle.std.specs.Prelude.{◌≡◌, [], List as Seq};
ghost use Rattle.graph_format.specs.Faults.{file_faults, graphs_of};
ghost use Rattle.graph_format.specs.declared.file.File.{File};
ghost use Rattle.kernel_gate.specs.Signed.{SignatureView, unnamed};
ghost use Rattle.pisdf_meaning.specs.Sound.{KernelsFit};

/// The graphs that a file means, in which there is no fault over some signatures, have actors that fit these signatures.
pub fn kernels_fit()
    ensures { (signatures : Seq SignatureView) (file : File) → file_faults signatures file ≡ [] → KernelsFit (unnamed signatures) (graphs_of signatures file).graphs }
{}
