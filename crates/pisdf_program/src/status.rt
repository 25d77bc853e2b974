ghost use Rattle.std.specs.Prelude.{◌≡◌};
ghost use Rattle.std.specs.Process.{exit_status};
ghost use Rattle.pisdf_program.specs.Codes.{code_of};

use graph_format::GraphFault;
use param_expr::Name;
use pisdf_meaning::Refusal;
use std::process::ExitCode;
use token_text::TokenFault;

/// How a call of the program ended.
#[derive(Drop)]
pub enum Status {
    /// All iterations were run, and every text was put whole.
    Done,
    /// No row of the table of commands reads the words.
    Usage,
    GraphRefused(GraphCause),
    TokensRefused(TokenCause),
    RunRefused(Refusal),
    /// A file couldn't be read. The shelf's count of faults of its name rose.
    ReadFault(Which),
    /// A text couldn't be put. A sink's count of faults rose.
    WriteFault,
    WantOfMemory,
    JournalRefused(JournalCause),
}

/// Why a graph file was refused.
#[derive(Drop)]
pub enum GraphCause {
    TooLong,
    /// Its first fault, which is never want of memory.
    Fault(GraphFault),
}

/// Why a token file was refused.
#[derive(Drop)]
pub enum TokenCause {
    TooLong,
    /// The first fault of its rows, which is never want of memory.
    Fault(TokenFault),
    /// An iteration began with fewer tokens left in a stream than it needs.
    Short { stream: Name, has: u64, needs: u32 },
}

/// Why a journal was refused.
#[derive(Drop)]
pub enum JournalCause {
    TooLong,
    /// It isn't the text of a run's journals, and this is its first bad line, counted from 1.
    Illegal { line: u64 },
}

/// One of the files that the words name.
#[derive(Clone, Copy, Debug, PartialEq, Eq)]
pub enum Which {
    Graph,
    Tokens,
    Journal,
}

impl Status {
    /// The exit code.
    pub fn code(&self) -> u8
        ensures { result ≡ code_of self.now }
    {
        match self {
            Status::Done => 0,
            Status::Usage => 1,
            Status::GraphRefused(_) => 2,
            Status::TokensRefused(_) => 3,
            Status::RunRefused(_) => 4,
            Status::ReadFault(_) => 5,
            Status::WriteFault => 6,
            Status::WantOfMemory => 7,
            Status::JournalRefused(_) => 9,
        }
    }
    /// The exit code, as a process ends with it.
    pub fn exit_code(&self) -> ExitCode
        ensures { exit_status result ≡ code_of self.now }
    {
        ExitCode::from(self.code())
    }
}
