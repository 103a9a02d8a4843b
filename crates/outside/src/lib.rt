//! Input and output of the controller: shelves of named files and sinks for bytes, which count their faults.
#![tactic(auto)]

mod call;
mod failed;
mod file_shelf;
mod listed;
mod memory;
mod memory_shelf;
mod memory_sink;
mod no_pace;
mod pace;
mod shelf;
mod shelf_fault;
mod sink;
mod stream_sink;

pub use call::Call;
pub use failed::Failed;
pub use file_shelf::FileShelf;
pub use memory::Memory;
pub use memory_shelf::MemoryShelf;
pub use memory_sink::MemorySink;
pub use no_pace::NoPace;
pub use pace::Pace;
pub use shelf::Shelf;
pub use shelf_fault::ShelfFault;
pub use sink::Sink;
pub use stream_sink::StreamSink;
