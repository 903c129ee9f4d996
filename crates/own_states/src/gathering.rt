// Numbers that leave the stretches for their block.
ghost use Rattle.std.specs.Prelude.{◌≡◌, ℕ, ◌+◌, ◌<◌, ◌≤◌, None};
ghost use Rattle.stretches.specs.Stretches.{AreTogether, said};
ghost use Rattle.own_states.specs.Keys as spec;
ghost use Rattle.own_states.specs.Saying.{plain_says};
ghost use Rattle.own_states.specs.States.{AreApart, the_states};

use crate::keys::BLOCK;
use crate::{BlockMap, Own, Plain};
use stretches::StretchList;

// Puts a number into its block, if it is in a stretch.
pub(crate) fn settle_in_block(plain: &mut StretchList<Plain>, blocks: &mut BlockMap, number: u64)
    requires { AreApart blocks.old plain.old }
    ensures apart { AreApart blocks.new plain.new }
    ensures states { the_states blocks.new plain.new ≡ the_states blocks.old plain.old }
    ensures none { said plain_says plain.new.list number ≡ None }
{
    if blocks.get(number).is_none() {
        gather(plain, blocks, number);
    }
}

// The block of a number comes, if it isn't there, with those of its numbers that are in stretches.
pub(crate) fn make_block(plain: &mut StretchList<Plain>, blocks: &mut BlockMap, number: u64)
    requires { AreApart blocks.old plain.old }
    ensures apart { AreApart blocks.new plain.new }
    ensures states { the_states blocks.new plain.new ≡ the_states blocks.old plain.old }
{
    if !blocks.has_block(number) {
        gather(plain, blocks, number);
    }
}

// Puts the numbers of a block that are in stretches into it.
pub(crate) fn gather(plain: &mut StretchList<Plain>, blocks: &mut BlockMap, number: u64)
    requires { AreApart blocks.old plain.old }
    ensures apart { AreApart blocks.new plain.new }
    ensures states { the_states blocks.new plain.new ≡ the_states blocks.old plain.old }
    ensures none { said plain_says plain.new.list number ≡ None }
{
    let start = number - number % BLOCK;
    let mut done = 0;
    while done < 32 {
        done += gather_some(plain, blocks, start + done as u64, 32 - done);
    }
}

// Puts the first numbers in a row that are in stretches, among so many of one block, into it. How
// many numbers are in no stretch then, of those from the first one on.
fn gather_some(plain: &mut StretchList<Plain>, blocks: &mut BlockMap, number: u64, most: u32) -> u32
    requires apart { AreApart blocks.old plain.old }
    requires some { 0 < most }
    requires together { spec.place_of number + most ≤ 32 }
    ensures some { 0 < result }
    ensures within { result ≤ most }
    ensures apart { AreApart blocks.new plain.new }
    ensures states { the_states blocks.new plain.new ≡ the_states blocks.old plain.old }
    ensures none { (n : ℕ) → number ≤ n → n < number + result
        → said plain_says plain.new.list n ≡ None }
    ensures no_more { (n : ℕ) → said plain_says plain.old.list n ≡ None
        → said plain_says plain.new.list n ≡ None }
{
    match plain.next_from(number) {
        Some(stretch) if stretch.first - number < most as u64 => {
            let before = (stretch.first - number) as u32;
            let count = stretch.count.min(most - before);
            gather_part(plain, blocks, stretch.first, count);
            before + count
        }
        _ => most,
    }
}

// Puts numbers that are in one stretch, so many of one block from one on, into the block.
fn gather_part(plain: &mut StretchList<Plain>, blocks: &mut BlockMap, first: u64, count: u32)
    requires apart { AreApart blocks.old plain.old }
    requires some { 0 < count }
    requires together { AreTogether plain.old.list first count }
    requires within { spec.place_of first + count ≤ 32 }
    ensures apart { AreApart blocks.new plain.new }
    ensures states { the_states blocks.new plain.new ≡ the_states blocks.old plain.old }
    ensures none { (n : ℕ) → first ≤ n → n < first + count
        → said plain_says plain.new.list n ≡ None }
    ensures no_more { (n : ℕ) → said plain_says plain.old.list n ≡ None
        → said plain_says plain.new.list n ≡ None }
{
    let part = plain.remove_part(first, count);
    blocks.insert(part.first, part.count, Own::Plain(part.value));
}
