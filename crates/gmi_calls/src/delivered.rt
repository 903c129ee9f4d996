// What comes of a delivery.
use vm_ids::Answer;

/// What a delivery answers, and whether the page came for which the access waited.
#[derive(Drop)]
pub struct Delivered {
    /// The answer of the load or the store.
    pub answer: Answer,
    /// False exactly where the access wasn't ready, and its page couldn't be brought in or a
    /// trouble came before any page was pulled. No other access became ready then.
    pub came: bool,
}
