use param_expr::{Name, Parsed};

/// The greatest number that an end of a parameter's range may be.
pub const GREATEST_BOUND: i64 = 2_147_483_647;

/// Where a parameter's value comes from: the kinds `"in"`, `"is"` and `"set"`.
#[derive(Drop)]
pub enum FileParamKind {
    Inherited,
    Derived(Parsed),
    Chosen,
}

/// A parameter of a graph, and the range that its value must lie in, both ends included.
#[derive(Drop)]
pub struct FileParam {
    pub name: Name,
    pub kind: FileParamKind,
    /// At least 0.
    pub low: i64,
    /// At least `low`, and at most `GREATEST_BOUND`.
    pub high: i64,
}
