/// The most graphs of a file.
pub const MAX_GRAPHS: usize = 32;

/// The most parameters of a graph.
pub const MAX_PARAMS: usize = 64;

/// The most input interfaces of a graph.
pub const MAX_INPUTS: usize = 32;

/// The most output interfaces of a graph.
pub const MAX_OUTPUTS: usize = 32;

/// The most actors of a graph.
pub const MAX_ACTORS: usize = 64;

/// The most FIFOs of a graph.
pub const MAX_FIFOS: usize = 128;

/// The most exports of a graph.
pub const MAX_EXPORTS: usize = 64;

/// The most tokens of a delay.
pub const MAX_DELAY_TOKENS: usize = 65_536;

/// The most tokens that stand at first in the state of a graph which an actor names.
pub const MAX_HOLD: usize = 262_144;

/// The most graphs nested in each other, the outermost counted.
pub const MAX_NESTING: usize = 8;
