// Flags kept as the bits of a number, the lowest bit the first flag (specs/Flags).
ghost use Rattle.std.specs.Prelude.{◌≡◌, ◌-◌, ◌/◌, ◌%◌, ◌^◌, ◌≤◌, ◌<◌, eqb};
ghost use Rattle.std.specs.Int.Bits.{bit_or};
ghost use Rattle.arith.specs.Inner.Flags.{ones_below};

// The lowest k bits set.
pub fn ones(k: u64) -> u64
    requires { k ≤ 64 }
    ensures { result ≡ 2 ^ k - 1 }
{
    if k == 64 {
        return u64::MAX;
    }
    (1 << k) - 1
}

// Whether bit i is set.
pub fn bit(bits: u64, i: u64) -> bool
    requires { i < 64 }
    ensures { result ≡ eqb (bits / 2 ^ i % 2) 1 }
{
    (bits >> i) % 2 == 1
}

// Bit i set as well.
pub fn with_bit(bits: u64, i: u64) -> u64
    requires { i < 64 }
    ensures { result ≡ bit_or bits (2 ^ i) }
{
    bits | 1 << i
}

// How many of the lowest n bits are set.
pub fn count_below(bits: u64, n: usize) -> usize
    ensures { (result ≡ ones_below n bits) × (result ≤ n) }
{
    (bits & ones(n.min(64) as u64)).count_ones() as usize
}
