// Where bytes come from and where they go: files that are read whole within a limit, and a sink
// that bytes are put into.
#![tactic(auto)]

mod fault;
mod files;
mod host_files;
mod host_sink;
mod mem_files;
mod mem_sink;
mod sink;
#[cfg(test)]
mod tests;

pub use fault::{FileFault, SinkFault};
pub use files::Files;
pub use host_files::HostFiles;
pub use host_sink::HostSink;
pub use mem_files::MemFiles;
pub use mem_sink::MemSink;
pub use sink::Sink;
