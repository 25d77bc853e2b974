use param_expr::{Expr, Name};

/// Where a parameter's value comes from.
#[derive(Drop)]
pub enum ParamKind {
    /// An argument of the hierarchical actor that fires the graph gives it.
    Inherited,
    /// An expression over the graph's parameters gives it.
    Derived(Expr),
    /// A configuration actor of the graph sets it.
    Chosen,
}

/// A parameter of a graph, and the range that its value must lie in, both ends included.
#[derive(Drop)]
pub struct Param {
    pub name: Name,
    pub kind: ParamKind,
    pub low: i64,
    pub high: i64,
}
