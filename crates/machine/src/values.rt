// Values of the machine: yes-no as numbers, the operations on two of them, ranges.
ghost use Rattle.std.specs.Prelude.{◌≡◌, ◌&&◌, ◌||◌};
ghost use Rattle.std.specs.Int.Signed.{le_z};
ghost use Rattle.arith.specs.Values.{int32, arithmetic};
ghost use Rattle.arith.specs.Results.{outcome_of};
ghost use Rattle.bytecode.specs.Instructions.{operation_of};
ghost use Rattle.machine.specs.Step.{bit, yes};
ghost use Rattle.machine.specs.Inner.Groups.{truth_of};

// A yes is 1, a no is 0.
pub fn bit_of(b: bool) -> i32
    ensures { result ≡ bit b }
{
    if b { 1 } else { 0 }
}

pub fn is_yes(z: i32) -> bool
    ensures { result ≡ yes z }
{
    arith::is_not_equal(z, 0)
}

fn both_yes(a: i32, b: i32) -> bool
    ensures { result ≡ (yes a && yes b) }
{
    if is_yes(a) {
        return is_yes(b);
    }
    false
}

fn either_yes(a: i32, b: i32) -> bool
    ensures { result ≡ (yes a || yes b) }
{
    if is_yes(a) {
        return true;
    }
    is_yes(b)
}

// Codes 4 to 8, before the range test: a match on the code byte, each arm the operation of its code.
fn exact(code: u8, a: i32, b: i32) -> i64
    ensures { int32 result ≡ arithmetic (operation_of code) a b }
{
    match code {
        4 => arith::sum(a, b),
        5 => arith::difference(a, b),
        6 => arith::product(a, b),
        7 => arith::quotient(a, b),
        _ => arith::remainder(a, b),
    }
}

// Codes 4 to 8.
pub fn calculated(code: u8, a: i32, b: i32) -> Option<i32>
    ensures { outcome_of result ≡ arithmetic (operation_of code) a b }
{
    arith::narrow(exact(code, a, b))
}

// Codes 10 to 15, 17 and 18: a match on the code byte, each arm the comparison of its code.
pub fn truth(code: u8, a: i32, b: i32) -> bool
    ensures { result ≡ truth_of code a b }
{
    match code {
        10 => arith::is_equal(a, b),
        11 => arith::is_not_equal(a, b),
        12 => arith::is_less(a, b),
        13 => arith::is_less_equal(a, b),
        14 => arith::is_greater(a, b),
        17 => both_yes(a, b),
        18 => either_yes(a, b),
        _ => arith::is_greater_equal(a, b),
    }
}

// Whether a value lies in a range.
pub fn in_range(low: i32, high: i32, v: i32) -> bool
    ensures { result ≡ (le_z low v && le_z v high) }
{
    if low <= v {
        return v <= high;
    }
    false
}
