// Where a number belongs among entries in order.
ghost use Rattle.std.specs.Prelude.{◌≡◌, ◌<◌, length, nat_le};
ghost use Rattle.std.specs.List.Sorted.{IsNonDecreasingBy};
ghost use Rattle.stretches.specs.Leaves.{entries};
ghost use Rattle.stretches.specs.Parted.{IsParted};
ghost use Rattle.stretches.specs.Places.{first_key, IsLeafFor};
ghost use Rattle.stretches.specs.Spots.{index, IsSpot};

use crate::Keyed;
use crate::directory::Directory;
use crate::spot::Spot;

impl<T: Keyed> Directory<T> {
    /// The spot behind the entries whose numbers aren't above this one, where the numbers don't
    /// fall.
    #[inline(never)]
    pub fn spot_behind(&self, number: u64) -> Spot
        requires { IsNonDecreasingBy T.key (entries self.now) }
        ensures parted { IsParted T.key (entries self.now) number (index self.now result) }
        ensures spot { IsSpot self.now result }
    {
        if self.leaf_count() == 0 {
            return Spot { leaf: 0, at: 0 };
        }
        let leaf = leaf_for(self, number);
        Spot {
            leaf,
            at: place_behind(self.leaf(leaf), number),
        }
    }
}

// The leaf where a number belongs: the last one whose first number isn't above it, or the first
// leaf.
fn leaf_for<T: Keyed>(list: &Directory<T>, number: u64) -> usize
    requires { 0 < length list.now.lists }
    ensures { IsLeafFor T.key list.now.lists number result }
{
    let mut leaf = 0;
    let mut behind = list.leaf_count();
    while leaf + 1 < behind {
        let middle = leaf + (behind - leaf) / 2;
        if begins_by(list.leaf(middle), number) {
            leaf = middle;
        } else {
            behind = middle;
        }
    }
    leaf
}

// Whether the first number of a leaf isn't above a number.
fn begins_by<T: Keyed>(leaf: &[T], number: u64) -> bool
    ensures { result ≡ nat_le (first_key T.key leaf.now) number }
{
    match leaf.first() {
        Some(entry) => entry.key() <= number,
        None => true,
    }
}

// The place behind the entries of a leaf whose numbers aren't above this one.
fn place_behind<T: Keyed>(leaf: &[T], number: u64) -> usize
    requires { IsNonDecreasingBy T.key leaf.now }
    ensures { IsParted T.key leaf.now number result }
{
    leaf.partition_point(|entry| entry.key() <= number)
}
