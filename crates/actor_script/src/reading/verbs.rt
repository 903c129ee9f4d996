// The verbs of commands.
ghost use Rattle.std.specs.Prelude.{◌≡◌, List, ℕ, map, option_and_then};
ghost use Rattle.actor_script.specs.Verbs.{form_for, other_form};

use super::forms;
use super::words::is;
use vm_ids::Command;

/// What the first word of a line asks for, where that is neither a load nor a store.
#[derive(Clone, Copy)]
pub enum Verb {
    Actor,
    Exit,
    Temp,
    Open,
    Destroy,
    Copy,
    Move,
    Map,
    Split,
    Protect,
    Lock,
    Unlock,
    Unmap,
    Status,
    Find,
    Sync,
    Flush,
    Invalidate,
    PageOut,
    Chain,
    Stat,
}

impl Verb {
    /// The verb that a word is. `None` exactly where it is no verb, `load` or `store`.
    #[tactic(auto, unfolding(crate::specs::Forms::verb_form))]
    pub fn of(word: &[u8]) -> Option<Verb>
        ensures { (operands : List (List ℕ)) → other_form word.now operands
            ≡ option_and_then (λ verb. form_for verb operands) result }
    {
        if is(word, b"load") || is(word, b"store") {
            return None;
        }
        if is(word, b"actor") {
            return Some(Verb::Actor);
        }
        if is(word, b"exit") {
            return Some(Verb::Exit);
        }
        if is(word, b"temp") {
            return Some(Verb::Temp);
        }
        if is(word, b"open") {
            return Some(Verb::Open);
        }
        if is(word, b"destroy") {
            return Some(Verb::Destroy);
        }
        if is(word, b"copy") {
            return Some(Verb::Copy);
        }
        if is(word, b"move") {
            return Some(Verb::Move);
        }
        if is(word, b"map") {
            return Some(Verb::Map);
        }
        if is(word, b"split") {
            return Some(Verb::Split);
        }
        if is(word, b"protect") {
            return Some(Verb::Protect);
        }
        if is(word, b"lock") {
            return Some(Verb::Lock);
        }
        if is(word, b"unlock") {
            return Some(Verb::Unlock);
        }
        if is(word, b"unmap") {
            return Some(Verb::Unmap);
        }
        if is(word, b"status") {
            return Some(Verb::Status);
        }
        if is(word, b"find") {
            return Some(Verb::Find);
        }
        if is(word, b"sync") {
            return Some(Verb::Sync);
        }
        if is(word, b"flush") {
            return Some(Verb::Flush);
        }
        if is(word, b"invalidate") {
            return Some(Verb::Invalidate);
        }
        if is(word, b"pageout") {
            return Some(Verb::PageOut);
        }
        if is(word, b"chain") {
            return Some(Verb::Chain);
        }
        if is(word, b"stat") {
            return Some(Verb::Stat);
        }
        None
    }

    /// The command of a verb and its operands.
    pub fn read(self, operands: &[&[u8]]) -> Option<Command>
        ensures { result ≡ form_for self (map (λ w. w.now) operands.now) }
    {
        match self {
            Verb::Actor => forms::read_actor(operands),
            Verb::Exit => forms::read_exit(operands),
            Verb::Temp => forms::read_temp(operands),
            Verb::Open => forms::read_open(operands),
            Verb::Destroy => forms::read_destroy(operands),
            Verb::Copy => forms::read_copy(operands),
            Verb::Move => forms::read_move(operands),
            Verb::Map => forms::read_map(operands),
            Verb::Split => forms::read_split(operands),
            Verb::Protect => forms::read_protect(operands),
            Verb::Lock => forms::read_lock(operands),
            Verb::Unlock => forms::read_unlock(operands),
            Verb::Unmap => forms::read_unmap(operands),
            Verb::Status => forms::read_status(operands),
            Verb::Find => forms::read_find(operands),
            Verb::Sync => forms::read_sync(operands),
            Verb::Flush => forms::read_flush(operands),
            Verb::Invalidate => forms::read_invalidate(operands),
            Verb::PageOut => forms::read_pageout(operands),
            Verb::Chain => forms::read_chain(operands),
            Verb::Stat => forms::read_stat(operands),
        }
    }
}
