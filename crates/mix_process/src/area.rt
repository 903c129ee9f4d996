// The areas of a process, where each begins, and how long it may be.

/// What a process has in memory: its text, its data, or its stack.
#[derive(Clone, Copy, Debug, PartialEq, Eq)]
pub enum Area {
    /// Pages of the image that all processes made of it share, for reading alone.
    Text,
    /// Pages of its own, at first those of the image behind the text; it can be grown.
    Data,
    /// Pages of its own, at first zeros.
    Stack,
}

/// The address of the first page of text.
pub const TEXT_START: u64 = 0x40_0000;

/// The address of the first page of data.
pub const DATA_START: u64 = 0x1000_0000;

/// The address of the first page of the stack.
pub const STACK_START: u64 = 0x4000_0000;

/// A process has at most so many pages of text.
pub const MOST_TEXT: u32 = 1024;

/// A process has at most so many pages of data.
pub const MOST_DATA: u32 = 65536;

/// A process has at most so many pages of stack.
pub const MOST_STACK: u32 = 1024;
