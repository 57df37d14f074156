//! What the program reads from (`Files`) and writes to (`Sink`): what both mean, files and sinks in
//! memory, and adapters for real files and streams.
#![tactic(auto)]

mod disk_files;
mod errors;
mod files;
mod laws;
mod memory_files;
mod memory_sink;
mod sink;
mod stored_file;
mod stream_sink;
mod sure_files;
mod sure_sink;

pub use disk_files::DiskFiles;
pub use errors::{Failed, ReadError};
pub use files::Files;
pub use laws::rose_within;
pub use memory_files::MemoryFiles;
pub use memory_sink::{FailingPut, MemorySink};
pub use sink::Sink;
pub use stored_file::StoredFile;
pub use stream_sink::StreamSink;
pub use sure_files::SureFiles;
pub use sure_sink::SureSink;
