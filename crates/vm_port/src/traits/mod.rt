// What is asked of the outside.
mod chooser;
mod dispatcher;
mod failed;
mod mapper;
mod sink;
mod source;

pub use chooser::Chooser;
pub use dispatcher::Dispatcher;
pub use failed::Failed;
pub use mapper::Mapper;
pub use sink::Sink;
pub use source::Source;
