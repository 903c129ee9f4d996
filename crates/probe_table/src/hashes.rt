// Hashes of plain numbers.
ghost use Rattle.std.specs.Prelude.{◌≡◌};
ghost use Rattle.probe_table.specs.Hashes.{hash_of_key, hash_of_pair};

// Odd numbers near 2^64 over the golden ratio, and over the plastic ratio.
const GOLDEN: u64 = 0x9e37_79b9_7f4a_7c15;

const PLASTIC: u64 = 0xc13f_a9a9_02a6_328f;

/// A hash of one number. Numbers that follow one another get hashes far apart.
#[tactic(auto, unfolding(crate::specs::Hashes::hash_of_key))]
pub fn hash(key: u64) -> u32
    ensures { result ≡ hash_of_key key }
{
    (key.wrapping_mul(GOLDEN) >> 32) as u32
}

/// A hash of two numbers, in which their order counts.
#[tactic(auto, unfolding(crate::specs::Hashes::hash_of_pair))]
pub fn hash_pair(first: u64, second: u64) -> u32
    ensures { result ≡ hash_of_pair first second }
{
    hash(first.wrapping_mul(PLASTIC).wrapping_add(second))
}
