/// The most bytes of a name.
pub const MAX_NAME_BYTES: usize = 64;

/// The most bytes of an expression's text.
pub const MAX_EXPRESSION_BYTES: usize = 1024;

/// The most parentheses that are open at once in an expression, those of `min` and `max` among them.
pub const MAX_OPEN_PARENTHESES: u32 = 32;
