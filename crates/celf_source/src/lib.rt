//! Files that are read through a shelf, and text that is written through a sink.
#![tactic(auto)]

mod calls;
mod files;
mod mem_shelf;
mod mem_sink;
mod read;
mod shelf;
mod sink;
mod sure_shelf;
mod sure_sink;
mod write;

pub use files::ShelfFile;
pub use mem_shelf::MemShelf;
pub use mem_sink::MemSink;
pub use read::{ReadAllFault, read_all};
pub use shelf::{Failed, Shelf};
pub use sink::{Sink, SinkFault};
pub use sure_shelf::SureShelf;
pub use sure_sink::SureSink;
pub use write::{WriteAllFault, write_all};
