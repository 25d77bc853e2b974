// The nodes of one compiled firing of a graph: kernels' frames and copies that are claimed and finished, firings of other
// graphs that are called and answered, and how the firing ends.
mod calling;
mod ending;
mod frames;
mod given;
mod handed;
mod running;
mod stage;
mod stages;
mod starting;
mod tracing;
mod writing;

pub(crate) use handed::Handed;
pub(crate) use running::Running;
pub(crate) use starting::run;
