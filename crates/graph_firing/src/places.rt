// Where configuration actors stand in their graph.
ghost use Rattle.std.specs.Prelude.{◌≡◌, ◌<◌, length, slice_index};
ghost use Rattle.graph_firing.specs.Places.{places_from};

use pisdf_model::{Actor, is_configuration};

/// The place among all actors of the configuration actor with this number.
pub(crate) fn nth_configuration(actors: &[Actor], number: usize) -> usize
    requires { number < length (places_from 0 actors.now) }
    ensures { result ≡ slice_index (places_from 0 actors.now) number }
{
    let mut left = number;
    for place in 0..actors.len() {
        if is_configuration(&actors[place].body) {
            if left == 0 {
                return place;
            }
            left -= 1;
        }
    }
    unreachable!()
}
