/// What a kernel is called, takes and gives.
#[derive(Clone, Copy, Debug)]
pub struct Signature {
    /// Its name, as graph files have it.
    pub name: &'static str,
    /// Whether it is one of configuration actors, which set parameters.
    pub config: bool,
    /// The least and the greatest number of its arguments.
    pub args_min: u32,
    pub args_max: u32,
    /// The numbers of its input and output ports.
    pub ins: u32,
    pub outs: u32,
    /// The least and the greatest number of parameters that it sets.
    pub sets_min: u32,
    pub sets_max: u32,
}
