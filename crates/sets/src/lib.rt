// Sets of numbers below 64, each held as one word: n is a member where the bit of 2^n is set. What the
// numbers are, nodes, positions, rules or nonterminals, is the callers' to know; a walk over a set's
// members is not here.
#![tactic(auto)]

ghost use Rattle.std.specs.Prelude.{◌≡◌, cond, ◌-◌, ◌^◌, ◌≤◌, ◌<◌};
ghost use Rattle.std.specs.Int.Bits.{bit_or};
ghost use Rattle.basics.specs.Bits.{bit};

// Whether n is a member.
pub fn has(set: u64, n: usize) -> bool
    requires { n < 64 }
    ensures { result ≡ bit set n }
{
    set & (1u64 << n) != 0
}

// The set with n, if n is to be in it.
pub fn with(set: u64, n: usize, member: bool) -> u64
    requires { n < 64 }
    ensures { result ≡ cond member (bit_or set (2 ^ n)) set }
{
    if member {
        return set | (1u64 << n);
    }
    set
}

// The set, if its members are to be in, else the empty set.
pub fn only_if(set: u64, member: bool) -> u64
    ensures { result ≡ cond member set 0 }
{
    if member { set } else { 0 }
}

// All numbers below a count.
pub fn all_below(count: usize) -> u64
    requires { count ≤ 64 }
    ensures { result ≡ 2 ^ count - 1 }
{
    if 63 < count {
        return u64::MAX;
    }
    (1u64 << count) - 1
}
