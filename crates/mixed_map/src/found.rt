// An entry as it is found.

/// What is said of a number: by an entry that stands alone, or by a stretch.
pub enum Found<'a, V, S> {
    /// The entry, which stands alone.
    Alone(&'a S),
    /// What a stretch says.
    Told(V),
}
