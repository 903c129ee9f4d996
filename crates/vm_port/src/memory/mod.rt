// Doubles of the outside in memory, which tell what they hold and fail where they are told to.
mod calls;
mod mapper;
mod pages;
mod sink;
mod source;
mod wrong;

pub use calls::{CallKind, CallNo};
pub use mapper::MemoryMapper;
pub use sink::MemorySink;
pub use source::MemorySource;
pub use wrong::WrongMapper;
