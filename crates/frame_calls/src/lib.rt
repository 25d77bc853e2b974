//! The calls on frames, kernels and leases, each made on the inputs of a row of a table: the answer is written as a JSON value,
//! which the row's wanted one is compared with. Each of them gives [`case_rows::Trouble`] where the row hasn't the form that its
//! call asks for, or where there is no memory.
#![tactic(auto)]

mod frame_parts;
pub mod frames;
pub mod kernels;
pub mod leases;
