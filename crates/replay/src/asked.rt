// What a command line asks for.

/// How large a manager is.
#[derive(Clone, Copy, Debug, PartialEq, Eq)]
pub struct Size {
    /// The number of page frames, 3 to 65,536.
    pub frames: u32,
    /// The bytes of a page, one of the eight sizes from 512 to 65,536.
    pub page_bytes: u32,
}

/// A script that a number makes.
#[derive(Clone, Copy, Debug, PartialEq, Eq)]
pub struct Generated {
    /// The number.
    pub number: u32,
    /// How many lines the script has, 1 to 1,000,000.
    pub lines: u32,
}

/// What a command line asks for.
#[derive(Clone, Copy, Debug, PartialEq, Eq)]
pub enum Asked {
    /// The replay of the script that the source has left.
    Run(Size),
    /// The lines of a script that a number makes.
    Generate(Generated),
    /// The summary of a replay of such a script, over so many page frames of 4,096 bytes.
    Trial(Generated, u32),
    /// The replay of the script of processes that the source has left, over so many page frames of
    /// 4,096 bytes.
    Mix { frames: u32 },
    /// The replay of the script of message ports that the source has left, over so many page frames
    /// of 4,096 bytes.
    Ipc { frames: u32 },
    /// The replay of the script of segments that the source has left, over so many page frames of
    /// 4,096 bytes. So many caches may be kept to which nothing refers, 0 to 1,024.
    Keep { limit: u32, frames: u32 },
    /// The replay of the script that the source has left, over a manager in which each live page
    /// has one of so many page frames of 4,096 bytes.
    Flat { frames: u32 },
}
