ghost use Rattle.std.specs.Prelude.{◌≡◌, ◌<◌, ◌≤◌, ◌^◌, length};
ghost use Rattle.param_expr.specs.Machine.{ReadingGives, TurnGives, first_reader, no_tally};

use crate::fault::ExprFault;
use crate::parsed::Parsed;
use crate::state::{State, end, step};
use crate::symbol::{Tally, token_at};
use std::alloc::Global;

/// An expression that was read, and what else was seen of its text.
#[derive(Drop)]
pub(crate) struct Reading {
    pub(crate) parsed: Parsed,
    pub(crate) tally: Tally,
}

/// How far a text is read.
#[derive(Drop)]
pub(crate) struct Reader {
    pub(crate) state: State,
    pub(crate) tally: Tally,
    /// The first byte that is left.
    pub(crate) at: usize,
}

impl Reader {
    fn start(alloc: Global) -> Reader
        ensures { result ≡ first_reader }
    {
        Reader {
            state: State::start(alloc),
            tally: Tally::none(),
            at: 0,
        }
    }

    /// After the next space or token.
    fn turn(self, alloc: Global, bytes: &[u8]) -> Result<Reader, ExprFault>
        requires more { self.at < length bytes.now }
        requires short { length bytes.now < 2 ^ 31 }
        requires opened { self.tally.opened ≤ self.at }
        ensures { TurnGives bytes.now self result }
    {
        let Reader { state, tally, at } = self;
        if bytes[at] == b' ' {
            return Ok(Reader {
                state,
                tally,
                at: at + 1,
            });
        }
        let (symbol, length) = token_at(alloc, &bytes[at..])?;
        let tally = tally.after(at as u32, &symbol);
        let state = step(alloc, at as u32, state, symbol)?;
        Ok(Reader {
            state,
            tally,
            at: at + length,
        })
    }
}

/// The expression that a text spells.
pub(crate) fn read(alloc: Global, text: &str) -> Result<Reading, ExprFault>
    requires { length text.now < 2 ^ 31 }
    ensures { ReadingGives text.now result }
{
    let bytes = text.as_bytes();
    let mut reader = Reader::start(alloc);
    while reader.at < bytes.len() {
        reader = reader.turn(alloc, bytes)?;
    }
    let Reader { state, tally, .. } = reader;
    let parsed = end(alloc, bytes.len() as u32, state)?;
    Ok(Reading { parsed, tally })
}
