// The limits of a machine.

/// At most this many actors are alive at once.
pub const LIVING_ACTORS: u32 = 256;

/// At most this many actors, caches and regions each are made.
pub const MOST_MADE: u32 = 65535;

/// At most this many pages of all live caches there are at once.
pub const LIVE_PAGES: u32 = 4194304;

/// Accesses need so many page frames that no locked page takes.
pub const UNLOCKED_FRAMES: u32 = 3;
