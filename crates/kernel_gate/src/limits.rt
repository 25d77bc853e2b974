/// The most tokens that `median` takes.
pub const MAX_MEDIAN_TOKENS: usize = 255;

/// The greatest width of a window of `moving`, in tokens.
pub const MAX_MOVING_WIDTH: i64 = 64;
