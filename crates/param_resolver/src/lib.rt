//! What a reconfiguration changes, worked out for one graph: the values of its parameters, the check that is made before
//! its configuration actors fire, and its level with the rates of its links.
#![tactic(auto)]

mod acting;
mod assignment;
mod check;
mod configuration;
mod fault;
mod feeds;
mod known;
mod laws;
mod level_set;
mod links;
mod numbering;
mod origin;
mod part_names;
mod rates;
mod resolution;
mod supplied;

pub use check::early;
pub use fault::{EarlyFault, LevelFault, ResolveFault, Why};
pub use feeds::feeding;
pub use known::Early;
pub use laws::{all_sound, early_unfolds, graphs_resolvable, level_by_actor, one_assignment};
pub use level_set::{LevelSet, level_of};
pub use origin::Origin;
pub use part_names::{child_at, param_name, part_name};
pub use resolution::resolve;
