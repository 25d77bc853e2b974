//! What the program reads from and writes to: shelves of files by name, and sinks of bytes, each with
//! a count of its faults. A caller that is told of a fault can see in the count that there was one.
#![tactic(auto)]

mod counts;
mod file_shelf;
mod folder;
mod memory_shelf;
mod memory_sink;
mod shelf;
mod sink;
mod stream_sink;

pub use file_shelf::{FileShelf, FolderShelf};
pub use folder::{Folder, SystemFiles};
pub use memory_shelf::MemoryShelf;
pub use memory_sink::MemorySink;
pub use shelf::{LoadFault, Shelf};
pub use sink::{Sink, SinkFailed, put_text};
pub use stream_sink::StreamSink;
