// A block of numbers in a row.
ghost use Rattle.std.specs.Prelude.{◌≡◌, ℕ, ◌+◌, ◌<◌, ◌≤◌, true, false};
ghost use Rattle.own_states.specs.Blocks.{nones, state_at, with_code};
ghost use Rattle.own_states.specs.Kinds.{is_among};

use crate::{Code, Kinds};
use mixed_map::Same;

// The codes of 32 numbers in a row, and how many of them say a state.
#[derive(Clone, Copy)]
pub(crate) struct Block {
    pub(crate) codes: [Code; 32],
    pub(crate) count: u32,
}

impl Same for Block {
    ghost same = { λ _ _ same. same };
}

impl Block {
    // A block with this code at so many places from one on, and with no other state.
    pub(crate) fn of(from: usize, count: u32, code: Code) -> Block
        requires { from + count ≤ 32 }
        ensures { result ≡ record {
          codes = with_code (nones 32) from count code;
          count = count;
        } }
    {
        if count == 32 {
            return Block {
                codes: [code; 32],
                count,
            };
        }
        let mut block = Block {
            codes: [Code::NONE; 32],
            count,
        };
        block.write(from, count, code);
        block
    }

    // Writes a code at so many places from one on.
    #[inline(always)]
    pub(crate) fn write(&mut self, from: usize, count: u32, code: Code)
        requires { from + count ≤ 32 }
        ensures { self.new ≡ record self.old {
          codes = with_code self.old.codes from count code;
        } }
    {
        for k in 0..count as usize {
            self.codes[from + k] = code;
        }
    }

    // How many places in a row, from one on and as far as so many, have states of these kinds.
    pub(crate) fn prefix(&self, from: usize, most: u32, kinds: Kinds) -> u32
        requires { from + most ≤ 32 }
        ensures within { result ≤ most }
        ensures alike { (k : ℕ) → k < result
            → is_among kinds (state_at self.now.codes (from + k)) ≡ true }
        ensures ends { result < most
            → is_among kinds (state_at self.now.codes (from + result)) ≡ false }
    {
        let mut done = 0;
        while done < most {
            if !kinds.has_some(self.codes[from + done as usize].state()) {
                return done;
            }
            done += 1;
        }
        done
    }
}
