// A part of a vector's bytes, lent to be written.
ghost use Rattle.std.specs.Prelude.{◌≡◌, ◌+◌, ◌≤◌, ◌⊎◌, slice_range};
ghost use Rattle.std.specs.Borrow.{sem};
ghost use Rattle.std.specs.List.{copy_within};
ghost use Rattle.std.specs.Vec.{vec_capacity, vec_len};
ghost use Rattle.frame_pool.specs.Lending.{LendsPart, LendsRun};

// The bytes from `start` up to `end`. Its clause says what the vector ends as for a list of any
// length, and so says nothing of the bytes behind `end`.
fn run_mut(bytes: &mut Vec<u8>, start: usize, end: usize) -> &mut [u8]
    requires order { start ≤ end }
    requires within { end ≤ vec_len bytes.old }
    ensures* writes_back { sem 𝓛 (LendsRun bytes.entry start result) }
    ensures bytes { result.now ≡ slice_range bytes.old.items start end }
{
    bytes.slice_mut(start..end)
}

// A run of the bytes as a slice, where the clause counts on the length: what is lent comes back as
// long as it was, and the other bytes are as before. The borrow checker shows no such clause, so
// its proof is written by hand.
pub(crate) fn part_mut(bytes: &mut Vec<u8>, start: usize, end: usize) -> &mut [u8]
    requires order { start ≤ end }
    requires within { end ≤ vec_len bytes.old }
    ensures* writes_back { sem 𝓛 (LendsPart bytes.entry start end result) }
    ensures bytes { result.now ≡ slice_range bytes.old.items start end }
{
    run_mut(bytes, start, end)
}

// Makes so many bytes from `to` on those from `from` on, none of which is one of the others.
pub(crate) fn copy_part(bytes: &mut Vec<u8>, from: usize, to: usize, count: usize)
    requires from { from + count ≤ vec_len bytes.old }
    requires to { to + count ≤ vec_len bytes.old }
    requires apart { (from + count ≤ to) ⊎ (to + count ≤ from) }
    ensures bytes { bytes.new.items ≡ copy_within bytes.old.items from (from + count) to }
    ensures room { vec_capacity bytes.new ≡ vec_capacity bytes.old }
{
    if from < to {
        let (low, high) = bytes.split_at_mut(to);
        high[..count].copy_from_slice(&low[from..from + count]);
    } else {
        let (low, high) = bytes.split_at_mut(from);
        low[to..to + count].copy_from_slice(&high[..count]);
    }
}
