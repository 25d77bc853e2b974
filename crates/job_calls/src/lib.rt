//! The calls on jobs, and on the heaps of their ready nodes, each made on the inputs of a row of a table: what a job or a heap is
//! started with, and the steps that are made of it one after the other. The answer is written as a JSON value, which the row's
//! wanted one is compared with. Each of them gives [`case_rows::Trouble`] where the row hasn't the form that its call asks for, or
//! where there is no memory.
#![tactic(auto)]

mod frames;
pub mod heaps;
pub mod jobs;
mod places;
mod starting;
mod steps;
