// The outside in memory, for tests. The calls with chosen numbers fail, and change only the count of faults.
mod calls;
mod memory_library;
mod memory_sink;
mod memory_source;

pub use memory_library::MemoryLibrary;
pub use memory_sink::MemorySink;
pub use memory_source::MemorySource;
