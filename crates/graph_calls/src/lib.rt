//! The calls on names, expressions, token files, graphs, their levels and their paths, and on shelves and sinks in memory, each
//! made on the inputs of a row of a table: the answer is written as a JSON value, which the row's wanted one is compared with.
//! Each of them gives [`case_rows::Trouble`] where the row hasn't the form that its call asks for, or where there is no memory.
#![tactic(auto)]

pub mod expressions;
mod graphs;
pub mod made_levels;
pub mod models;
mod parts;
pub mod reading;
pub mod resolving;
mod shown;
mod signatures;
pub mod tokens;
pub mod top_levels;
pub mod world;
