// 32-bit arithmetic of document 01, worked in i64: a result is cast back only after a range test. `bits` has flags kept as bits.
#![tactic(auto)]

ghost use Rattle.std.specs.Prelude.{◌≡◌, ◌<◌, ◌^◌};
ghost use Rattle.arith.specs.Values.{count as count_of, int32, arithmetic, add, subtract, multiply, divide, modulo, negation, compares, equal, not_equal, less, less_equal, greater, greater_equal};
ghost use Rattle.arith.specs.Results.{outcome_of};

pub mod bits;

// A number outside the 32-bit signed range: `narrow` makes none of it.
const OUTSIDE: i64 = 2147483648;

// A number as a count; of a negative one, 0.
pub fn count(z: i32) -> u64
    ensures { (result ≡ count_of z) × (result < 2 ^ 31) }
{
    z.max(0) as u64
}

// The number where it is in the 32-bit signed range; none is refusal 14.
pub fn narrow(x: i64) -> Option<i32>
    ensures { outcome_of result ≡ int32 x }
{
    i32::try_from(x).ok()
}

// The exact result of an operation; `narrow` casts it back.
pub fn sum(a: i32, b: i32) -> i64
    ensures { int32 result ≡ arithmetic add a b }
{
    let x = a as i64;
    let y = b as i64;
    x + y
}

pub fn difference(a: i32, b: i32) -> i64
    ensures { int32 result ≡ arithmetic subtract a b }
{
    let x = a as i64;
    let y = b as i64;
    x - y
}

pub fn product(a: i32, b: i32) -> i64
    ensures { int32 result ≡ arithmetic multiply a b }
{
    let x = a as i64;
    let y = b as i64;
    x * y
}

// Cut toward zero. -2147483648 / -1 leaves the range, and so does what a zero divisor gives.
pub fn quotient(a: i32, b: i32) -> i64
    ensures { int32 result ≡ arithmetic divide a b }
{
    let x = a as i64;
    let y = b as i64;
    if y == 0 {
        return OUTSIDE;
    }
    x / y
}

// With the dividend's sign, and 0 for a zero divisor (A.5). -2147483648 mod -1 is 0: the quotient is not range-tested.
pub fn remainder(a: i32, b: i32) -> i64
    ensures { int32 result ≡ arithmetic modulo a b }
{
    let x = a as i64;
    let y = b as i64;
    if y == 0 {
        return 0;
    }
    x % y
}

pub fn negated(a: i32) -> Option<i32>
    ensures { outcome_of result ≡ negation a }
{
    let x = a as i64;
    narrow(0 - x)
}

// The six comparisons of the document: one expression each, with the definition that their callers cite.
pub fn is_equal(a: i32, b: i32) -> bool
    ensures { result ≡ compares equal a b }
{
    a == b
}

pub fn is_not_equal(a: i32, b: i32) -> bool
    ensures { result ≡ compares not_equal a b }
{
    a != b
}

pub fn is_less(a: i32, b: i32) -> bool
    ensures { result ≡ compares less a b }
{
    a < b
}

pub fn is_less_equal(a: i32, b: i32) -> bool
    ensures { result ≡ compares less_equal a b }
{
    a <= b
}

pub fn is_greater(a: i32, b: i32) -> bool
    ensures { result ≡ compares greater a b }
{
    a > b
}

pub fn is_greater_equal(a: i32, b: i32) -> bool
    ensures { result ≡ compares greater_equal a b }
{
    a >= b
}
