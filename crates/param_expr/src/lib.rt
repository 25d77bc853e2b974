//! Names, and the expressions that give rates and parameters.
#![tactic(auto)]

mod binding;
mod evaluation;
mod expr;
mod fault;
mod laws;
mod limits;
mod name;
mod op;
mod parsed;
mod parsing;
mod printing;
mod reader;
mod stack;
mod state;
mod symbol;

pub use binding::{BindFault, Places, bind, bind_in};
pub use evaluation::{EvalFault, eval};
pub use expr::{Expr, ExprForm};
pub use fault::ExprFault;
pub use laws::one_answer;
pub use limits::{MAX_EXPRESSION_BYTES, MAX_NAME_BYTES, MAX_OPEN_PARENTHESES};
pub use name::{Name, is_name};
pub use op::Op;
pub use parsed::Parsed;
pub use parsing::parse;
pub use printing::print;
