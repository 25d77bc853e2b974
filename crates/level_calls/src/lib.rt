//! The calls on levels, schedules, single-rate graphs and what is compiled of them, each made on the inputs of a row of a table:
//! the answer is written as a JSON value, which the row's wanted one is compared with. Each of them gives
//! [`case_rows::Trouble`] where the row hasn't the form that its call asks for, or where there is no memory.
#![tactic(auto)]

pub mod bounds;
pub mod compilations;
mod edges;
pub mod lines;
pub mod orderings;
pub mod placements;
pub mod schedules;
pub mod solving;
