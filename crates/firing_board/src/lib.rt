//! The board of a run: its workers claim items of the open jobs and finish them, and the journal of their steps tells what one
//! thread gets. Items are handed out by the rules of boards, whatever the order in which workers come.
#![tactic(auto)]

mod board;
mod claim;
mod claiming;
mod ending;
mod finding;
mod finishing;
mod frame_rooms;
mod journal_room;
mod keeping;
mod laws;
mod locked;
mod numbering;
mod run;
mod signatures;
mod starting;
mod state;
mod table;

pub use board::Board;
pub use claim::{Claim, Ticket};
pub use ending::BoardEnd;
pub use laws::{calls_are_fit, full_buffers_keep_tokens, live_buffers_stay_apart};
pub use locked::{BoardKey, FramePlaces};
