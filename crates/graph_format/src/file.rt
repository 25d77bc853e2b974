use crate::actor::FileActor;
use crate::fifo::FileFifo;
use crate::param::FileParam;
use crate::port::FilePort;
use param_expr::Name;
use sdf_level::List;

/// A graph as a file states it: parts refer to each other by names. Each list is in the order of the file.
#[derive(Drop)]
pub struct FileGraph {
    pub name: Name,
    pub params: List<FileParam>,
    pub inputs: List<FilePort>,
    pub outputs: List<FilePort>,
    pub actors: List<FileActor>,
    pub fifos: List<FileFifo>,
    /// The names of the parameters that the graph exports, in version 3. The others have none.
    pub exports: List<Name>,
}

/// A graph file's content, before its names are resolved.
#[derive(Drop)]
pub struct File {
    /// The version of the format.
    pub version: u32,
    /// The name of the top graph.
    pub top: Name,
    pub graphs: List<FileGraph>,
}
