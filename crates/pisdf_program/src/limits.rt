//! The limits of what the program takes.

/// The bytes of a graph file.
pub const GRAPH_BYTES: usize = 4_194_304;

/// The bytes of a token file.
pub const TOKEN_BYTES: usize = 67_108_864;

/// The bytes of a journal.
pub const JOURNAL_BYTES: usize = 67_108_864;

/// The iterations of a run, and the digits of their number.
pub const ITERATIONS: u32 = 65_536;

pub const ITERATION_DIGITS: usize = 5;

/// The workers of a run, and the digits of their number.
pub const WORKERS: u32 = 16;

pub const WORKER_DIGITS: usize = 2;

/// The iterations that are fired as one, and the digits of their number.
pub const TIMES: u32 = 64;

pub const TIMES_DIGITS: usize = 2;

/// The number of a generated run, and its digits.
pub const GENERATED: u32 = 65_535;

pub const GENERATED_DIGITS: usize = 5;
