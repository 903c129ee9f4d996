// Buckets on their own: where a hash begins, walks to a bucket, and the gap that a removal leaves.
ghost use Rattle.std.specs.Prelude.{◌≡◌, ◌≢◌, ◌*◌, ◌^◌, ◌<◌, ◌≤◌, None, Some, ℕ, List, Option, length, slice_set};
ghost use Rattle.probe_table.specs.Entries.{hash_of};
ghost use Rattle.probe_table.specs.Probing.{bucket, home_of, IsProbing, IsPassed};

// The first bucket at which a number with this hash may stand, in a table for `count` numbers.
#[tactic(auto, unfolding(crate::specs::Probing::home_of))]
pub(crate) fn home_of(hash: u32, count: usize) -> usize
    requires { count ≤ 2 ^ 18 }
    ensures value { result ≡ home_of count hash }
    ensures below { result ≤ 2 * count }
{
    let homes = 2 * count as u64;
    (hash as u64 * homes / (1 << 32)) as usize
}

// The first bucket from an index on that has this in it.
pub(crate) fn first_with(buckets: &[Option<u32>], from: usize, wanted: Option<u32>) -> usize
    requires { ¬ IsPassed buckets.now from (length buckets.now) wanted }
    ensures at { bucket buckets.now result ≡ wanted }
    ensures from { from ≤ result }
    ensures within { result < length buckets.now }
    ensures passed { IsPassed buckets.now from result wanted }
{
    let mut at = from;
    while buckets[at] != wanted {
        at += 1;
    }
    at
}

// Puts a number into the first bucket from its home on that is empty.
#[inline(always)]
pub(crate) fn put(buckets: &mut [Option<u32>], count: usize, number: u32, hash: u32)
    requires count { count ≤ 2 ^ 18 }
    requires room { ¬ IsPassed buckets.old (2 * count) (length buckets.old) None }
    ensures { (hashes : List (Option ℕ)) → IsProbing hashes buckets.old (length buckets.old)
        → length hashes ≡ count → number < length hashes → hash_of hashes number ≡ None
        → IsProbing (slice_set hashes number (Some hash)) buckets.new (length buckets.new) }
{
    let home = home_of(hash, count);
    let at = first_with(buckets, home, None);
    buckets[at] = Some(number);
}

// Fills an emptied bucket from behind, and each that this empties, until none is missed on the way.
pub(crate) fn close_gap(buckets: &mut [Option<u32>], hashes: &[Option<u32>], mut gap: usize)
    requires gap { gap < length buckets.old }
    requires empty { bucket buckets.old gap ≡ None }
    requires probing { IsProbing hashes.now buckets.old gap }
    ensures { IsProbing hashes.now buckets.new (length buckets.new) }
{
    for at in gap + 1..buckets.len() {
        let number = match buckets[at] {
            Some(number) => number,
            None => return,
        };
        let hash = hashes[number as usize].unwrap();
        if home_of(hash, hashes.len()) <= gap {
            buckets[gap] = Some(number);
            buckets[at] = None;
            gap = at;
        }
    }
}
