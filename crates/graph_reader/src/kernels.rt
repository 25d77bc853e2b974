// Kernels that are none, or of the other kind.
ghost use Rattle.std.specs.Prelude.{◌≡◌, find, map, option_copied, option_map};
ghost use Rattle.std.specs.List.{flat_map};
ghost use Rattle.std.specs.Str.{bytes_eq};
ghost use Rattle.kernel_gate.specs.Signed.{signature_view};
ghost use Rattle.pisdf_model.specs.Details.{first};
ghost use Rattle.graph_format.specs.Kernels.{is_of_config, is_of_kernel, signature_named, unfit_in_body, unfit_in_file, unfit_in_graph};

use graph_format::{File, FileActor, FileBody, FileGraph};
use kernel_gate::Signature;
use param_expr::Name;

fn first_signature<'a>(signatures: &'a [Signature], name: &Name) -> Option<&'a Signature>
    ensures { option_copied result ≡ find (λ signature. bytes_eq name.now signature.name.now) signatures.now }
{
    signatures
        .iter()
        .find(|signature| name.text() == signature.name)
}

/// The first signature of that name.
fn signature_named<'a>(signatures: &'a [Signature], name: &Name) -> Option<&'a Signature>
    ensures { option_map (λ s. signature_view s.now) result ≡ signature_named (map signature_view signatures.now) name.now }
{
    first_signature(signatures, name)
}

/// The kernel of an actor, if it is none or of the other kind.
fn unfit_in_body<'a>(signatures: &[Signature], body: &'a FileBody) -> Option<&'a Name>
    ensures { option_copied result ≡ first (unfit_in_body (map signature_view signatures.now) body.now) }
{
    match body {
        FileBody::Kernel { kernel, .. } => match signature_named(signatures, kernel) {
            Some(signature) if !signature.config => None,
            _ => Some(kernel),
        },
        FileBody::Config { kernel, .. } => match signature_named(signatures, kernel) {
            Some(signature) if signature.config => None,
            _ => Some(kernel),
        },
        FileBody::Child { .. } | FileBody::ConfigChild { .. } => None,
    }
}

fn unfit_in_actors<'a>(signatures: &[Signature], actors: &'a [FileActor]) -> Option<&'a Name>
    ensures { option_copied result ≡ first (flat_map (λ actor. unfit_in_body (map signature_view signatures.now) actor.body) actors.now) }
{
    for actor in actors {
        if let Some(kernel) = unfit_in_body(signatures, &actor.body) {
            return Some(kernel);
        }
    }
    None
}

fn unfit_in_graphs<'a>(signatures: &[Signature], graphs: &'a [FileGraph]) -> Option<&'a Name>
    ensures { option_copied result ≡ first (flat_map (unfit_in_graph (map signature_view signatures.now)) graphs.now) }
{
    for graph in graphs {
        if let Some(kernel) = unfit_in_actors(signatures, graph.actors.items()) {
            return Some(kernel);
        }
    }
    None
}

/// The first kernel in a file that has no signature, or whose first signature is of the other kind: that of a
/// configuration actor for a kernel actor, or the other way round.
pub(crate) fn unfit_kernel<'a>(signatures: &[Signature], file: &'a File) -> Option<&'a Name>
    ensures { option_copied result ≡ first (unfit_in_file (map signature_view signatures.now) file.now) }
{
    unfit_in_graphs(signatures, file.graphs.items())
}
