// Capability sets as 64-bit masks: bit n of a set is capability n.
//
// A set is joined by `a | b` and cut by `a & b` in place; what takes more than one operator is here.
// A number from 64 on is no member of any set.
#![tactic(auto, unfolding(crate::specs::Sets::lacks, crate::specs::Sets::outside, crate::specs::Sets::single))]

ghost use Rattle.std.specs.Prelude.{◌≡◌};
ghost use Rattle.capabilities.specs.Sets.{has, lacks, minus, outside, single, within};

// Every capability there is, 0 to 40.
pub const FULL: u64 = 0x1ff_ffff_ffff;

// How many bits a set has.
const WORD_BITS: u64 = 64;

// What is in a and not in b.
pub fn difference(a: u64, b: u64) -> u64
    ensures { result ≡ minus a b }
{
    a & !b
}

// The set of n alone, or the empty set where n is 64 or more.
pub fn single(n: u64) -> u64
    ensures { result ≡ single n }
{
    if n < WORD_BITS {
        return 1u64 << n;
    }
    0
}

// Whether n is a member of a: never where n is 64 or more.
pub fn has(a: u64, n: u64) -> bool
    ensures { result ≡ has a n }
{
    if n < WORD_BITS {
        return (a >> n) & 1 == 1;
    }
    false
}

// Whether n is no member of a.
pub fn lacks(a: u64, n: u64) -> bool
    ensures { result ≡ lacks a n }
{
    !has(a, n)
}

// Whether every member of a is one of b.
pub fn is_within(a: u64, b: u64) -> bool
    ensures { result ≡ within a b }
{
    a | b == b
}

// Whether some member of a is none of b.
pub fn outside(a: u64, b: u64) -> bool
    ensures { result ≡ outside a b }
{
    a | b != b
}
