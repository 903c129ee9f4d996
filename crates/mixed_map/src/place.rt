// Where a lone entry stands.

/// Where an entry stands that stands alone: the number that it is the entry of, and its slot. It
/// holds as long as the entry stands alone, whatever else comes and goes.
#[derive(Clone, Copy, Debug, PartialEq, Eq)]
pub struct Place {
    pub number: u64,
    /// Slots are counted from 0, and below the room of the map.
    pub slot: u32,
}
