//! What lies outside the program: where its bytes come from and go to, each with a count of its faults.
#![tactic(auto)]

mod files;
mod memory;
mod named;
mod sink;
mod source;
mod standard;
mod stored;
mod sure;
mod writes;

pub use files::{Files, FilesFault};
pub use memory::{MemorySink, MemorySource};
pub use named::{Named, NamedList};
pub use sink::{Failed, Sink};
pub use source::{Source, Take};
pub use standard::{DiskFiles, StdSink, StdSource};
pub use stored::MemoryFiles;
pub use sure::{SureFiles, SureSource};
pub use writes::write_all;
