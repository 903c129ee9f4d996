// Hashes, and the buckets of hashes.
ghost use Rattle.std.specs.Prelude.{◌≡◌, ◌<◌, ◌^◌};
ghost use Rattle.linear_index.specs.Hashes.{bucket_of, hash_of, mask_for};

// An odd number near 2^64 over the golden ratio.
const GOLDEN: u64 = 0x9e37_79b9_7f4a_7c15;

// A hash of a key. Sixteen keys in a row get hashes in a row, so that their buckets lie together in
// the memory, and others get hashes far apart.
#[tactic(auto, unfolding(crate::specs::Hashes::hash_of))]
pub(crate) fn hash(key: u64) -> usize
    ensures { result ≡ hash_of key }
{
    ((key / 16).wrapping_mul(GOLDEN) >> 32).wrapping_add(key) as usize
}

// The bucket of a hash among so many: that of its last bits, or of one bit less where that bucket
// isn't there yet.
#[tactic(auto, unfolding(crate::specs::Hashes::bucket_of))]
pub(crate) fn bucket_of_hash(hash: usize, mask: usize, buckets: usize) -> usize
    ensures { result ≡ bucket_of mask buckets hash }
{
    let bucket = hash & mask;
    if bucket < buckets {
        bucket
    } else {
        hash & (mask >> 1)
    }
}

// The mask for one bucket more than so many.
pub(crate) fn mask_for_more(mask: usize, buckets: usize) -> usize
    requires { buckets < 2 ^ 63 }
    ensures { result ≡ mask_for mask buckets }
{
    if mask < buckets { 2 * mask + 1 } else { mask }
}
