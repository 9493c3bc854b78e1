//! The outside of the program: a shelf of files that are read by name, and a sink that takes bytes.
#![tactic(auto)]

mod calls;
mod file_shelf;
mod mem_shelf;
mod mem_sink;
mod out_sink;
mod shelf;
mod sink;

pub use file_shelf::FileShelf;
pub use mem_shelf::{MemShelf, NamedFile, TrueShelf};
pub use mem_sink::{MemSink, TrueSink};
pub use out_sink::OutSink;
pub use shelf::{Shelf, ShelfFault};
pub use sink::{Sink, SinkFault};
