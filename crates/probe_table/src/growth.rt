// More numbers get hashes and buckets, within the room that there is for all.
ghost use Rattle.std.specs.Prelude.{◌≡◌, ◌++◌, ◌-◌, ◌*◌, ◌^◌, ◌<◌, ◌≤◌, None, length, replicate, vec_capacity};
ghost use Rattle.probe_table.specs.Entries.{table_of};
ghost use Rattle.probe_table.specs.Probing.{IsKept, IsProbing};

use crate::probe::put;

// So many numbers have hashes at least, once one has.
const LEAST: usize = 16;

// How many numbers have hashes once this one has: twice as many as before, within the table.
fn size_for(size: usize, count: u32, number: u32) -> usize
    requires below { number < count }
    requires few { count ≤ 2 ^ 18 }
    requires within { size ≤ count }
    ensures at { number < result }
    ensures within { result ≤ count }
{
    let wanted = (2 * size).max(number as usize + 1).max(LEAST);
    wanted.min(count as usize)
}

// Puts each number that is entered into the buckets.
fn refill(buckets: &mut [Option<u32>], hashes: &[Option<u32>])
    requires few { length hashes.now ≤ 2 ^ 18 }
    requires empty { buckets.old ≡ replicate (3 * length hashes.now) None }
    ensures { IsProbing hashes.now buckets.new (length buckets.new) }
{
    for number in 0..hashes.len() {
        if let Some(hash) = hashes[number] {
            put(buckets, hashes.len(), number as u32, hash);
        }
    }
}

// Makes a list so long, with `None` behind what is there.
fn lengthen(list: &mut Vec<Option<u32>>, size: usize)
    requires more { length list.old.items ≤ size }
    requires room { size ≤ vec_capacity list.old }
    ensures items { list.new.items
        ≡ list.old.items ++ replicate (size - length list.old.items) None }
    ensures size { length list.new.items ≡ size }
    ensures room { vec_capacity list.old ≤ vec_capacity list.new }
{
    match list.resize(size, None) {
        Ok(()) => {}
        Err(_) => unreachable!(),
    }
}

// Gives hashes and buckets to more numbers, this one among them.
#[inline(never)]
fn grow(hashes: &mut Vec<Option<u32>>, buckets: &mut Vec<Option<u32>>, count: u32, number: u32)
    requires below { number < count }
    requires past { length hashes.old.items ≤ number }
    requires kept { IsKept count hashes.old buckets.old }
    ensures at { number < length hashes.new.items }
    ensures kept { IsKept count hashes.new buckets.new }
    ensures same { table_of count hashes.new.items ≡ table_of count hashes.old.items }
{
    let size = size_for(hashes.len(), count, number);
    lengthen(hashes, size);
    buckets.clear();
    lengthen(buckets, 3 * size);
    refill(buckets, hashes);
}

// Sees to it that this number has a hash.
#[inline(always)]
pub(crate) fn bring(
    hashes: &mut Vec<Option<u32>>,
    buckets: &mut Vec<Option<u32>>,
    count: u32,
    number: u32,
)
    requires below { number < count }
    requires kept { IsKept count hashes.old buckets.old }
    ensures at { number < length hashes.new.items }
    ensures kept { IsKept count hashes.new buckets.new }
    ensures same { table_of count hashes.new.items ≡ table_of count hashes.old.items }
{
    if (number as usize) < hashes.len() {
        return;
    }
    grow(hashes, buckets, count, number);
}
