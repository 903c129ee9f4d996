// Where the answers of lines go.
ghost use Rattle.std.specs.Prelude.{◌+◌, ℕ, OnOk, OnErr};
ghost use Rattle.vm_model.specs.Answering.{Answer};

use vm_ids::Answer;
use vm_port::Failed;

/// Where the answers of lines go, one after another, beside a sink: as texts to the sink, or into a
/// tally that leaves it alone.
pub trait Replies<K> {
    /// So many answers more can be put.
    ghost fits: { Self → ℕ → Type 0 };

    /// From how it and the sink were to how they are, the answer to the line of this number was
    /// put.
    ghost puts: { Self × K → ℕ → Answer → Self × K → Type 0 };

    /// The same, but it couldn't be put as a whole.
    ghost fails: { Self × K → ℕ → Answer → Self × K → Type 0 };

    /// Puts the answer to the line of this number behind the others.
    fn put(&mut self, number: u32, answer: &Answer, sink: &mut K) -> Result<(), Failed>
        requires fits { (more : ℕ) × fits self.old (more + 1) }
        ensures fits { (more : ℕ) → fits self.old (more + 1) → fits self.new more }
        ensures put { OnOk result
            (puts (self.old, sink.old) number answer.now (self.new, sink.new)) }
        ensures failed { OnErr result
            (fails (self.old, sink.old) number answer.now (self.new, sink.new)) };
}
