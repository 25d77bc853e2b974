//! The calls on the lock, each made on the inputs of a row of a table: workers, by themselves or in threads, who take turns at one
//! tally. The answer is written as a JSON value, which the row's wanted one is compared with. Each of them gives
//! [`case_rows::Trouble`] where the row hasn't the form that its call asks for, or where there is no memory.
#![tactic(auto)]

pub mod tally;
pub mod turns;
