// What a run is given from outside.

/// What a run is given from outside, each part lent.
#[derive(Drop)]
pub struct Given<'a, S, K, M, C, D> {
    /// Where the script is read.
    pub source: &'a mut S,
    /// Where the replies are written.
    pub sink: &'a mut K,
    /// What holds segments and swapped pages.
    pub mapper: &'a mut M,
    /// Who chooses the page that is evicted.
    pub chooser: &'a mut C,
    /// Who chooses which access is delivered next.
    pub dispatcher: &'a mut D,
}
