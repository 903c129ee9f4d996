// The limit of the ports.

/// At most this many ports are made.
pub const MOST_PORTS: u32 = 1024;
