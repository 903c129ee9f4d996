// Answers that are counted.
ghost use Rattle.line_service.specs.Tallying.{HasRoom};
ghost use Rattle.actor_script.specs.Summary.{Tallies};

use crate::Replies;
use actor_script::Tally;
use vm_ids::Answer;
use vm_port::Failed;

// The answers are counted, and no sink is touched.
impl Replies<()> for Tally {
    ghost fits = { λ t more. HasRoom t more };

    ghost puts = { λ before number answer after. Tallies before.0 answer after.0 };

    ghost fails = { λ before number answer after. ⊥ };

    fn put(&mut self, _number: u32, answer: &Answer, _sink: &mut ()) -> Result<(), Failed> {
        self.count(answer);
        Ok(())
    }
}
