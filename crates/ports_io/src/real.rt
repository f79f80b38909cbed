// The outside as the system gives it. Nothing is told of its bytes and texts, and each error is counted.
mod folder_library;
mod input_source;
mod output_sink;

pub use folder_library::FolderLibrary;
pub use input_source::InputSource;
pub use output_sink::OutputSink;
