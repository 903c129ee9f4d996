//! The adapters to the host: its streams as a source and a sink, the files of a folder as a mapper,
//! and lines on standard error.
//!
//! Contracts see of each what it counts, and of a mapper the bytes of a page (`Filing`): what the
//! host's files and streams give and take isn't told, so each call may fail, and is proved to count
//! that it did. It stands on the interface of the outside (`vm_port`) alone; the program puts its
//! adapters under the one call that it makes.
#![tactic(auto)]

mod file_mapper;
mod folder;
mod message;
mod opened;
mod sink;
mod source;
mod swap_area;
mod waiting;

pub use file_mapper::FileMapper;
pub use message::tell;
pub use sink::StreamSink;
pub use source::StreamSource;
