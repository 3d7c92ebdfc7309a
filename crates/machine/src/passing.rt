// Instructions that are passed over, up to the next pick: only the place moves, whatever is held.
ghost use Rattle.std.specs.Prelude.{◌≡◌, true, ◌+◌, ◌≤◌, ◌<◌, length};
ghost use Rattle.leb128.specs.Numbers.{number_at};
ghost use Rattle.machine.specs.Inner.Passing.{over_of, OverTo, PassedBy, BeyondBy, FirstBy};

use crate::timer;

// The place behind codes 1 to 19, and how many they are.
#[derive(Clone, Copy)]
pub struct Along {
    pub at: usize,
    pub steps: usize,
}

// An instruction with an operand. Here and below: whether instructions are still passed over, the place behind those that were, and how many they are;
// or the first is broken.
fn over(code: &[u8], at: usize, passing: bool) -> Option<(bool, usize, usize)>
    requires { at < length code.now }
    ensures { result ≡ over_of passing (number_at code.now (at + 1)) }
{
    let (_, next) = leb128::unsigned_at(code, at + 1)?;
    Some((passing, next, 1))
}

// One instruction: a pick ends it.
fn pass_over(code: &[u8], at: usize) -> Option<(bool, usize, usize)>
    requires { at < length code.now }
    ensures { PassedBy code.now at 1 result }
{
    match code[at] {
        20 => over(code, at, false),
        23 => timer::pass(code, at),
        24 => over(code, at, false),
        25 => over(code, at, false),
        1..=3 => over(code, at, true),
        4..=19 => Some((true, at + 1, 1)),
        21..=22 => over(code, at, true),
        _ => None,
    }
}

// The place behind one of the codes 1 to 19; or it is another.
fn past(code: &[u8], at: usize) -> Option<usize>
    requires { at < length code.now }
    ensures { BeyondBy code.now at result }
{
    let byte = code[at];
    if 19 < byte {
        return None;
    }
    if 3 < byte {
        return Some(at + 1);
    }
    if byte == 0 {
        return None;
    }
    let (_, next) = leb128::unsigned_at(code, at + 1)?;
    Some(next)
}

// As many such codes as stand here, at most `left`: a loop that keeps two numbers.
fn pass_along(code: &[u8], from: usize, left: usize) -> Along
    ensures over_to { OverTo code.now from result.steps true result.at }
    ensures steps_le_left { (result.steps ≤ left) × (result.steps ≡ 0 → result.at ≡ from) }
{
    let mut at = from;
    for steps in 0..left {
        if code.len() <= at {
            return Along { at, steps };
        }
        let Some(next) = past(code, at) else {
            return Along { at, steps };
        };
        at = next;
    }
    Along { at, steps: left }
}

// At most `left` instructions: those up to the pick, and the pick. Where one behind the first is broken, those before it.
fn pass_on(code: &[u8], at: usize, left: usize) -> Option<(bool, usize, usize)>
    requires { (at < length code.now) × (0 < left) }
    ensures { PassedBy code.now at left result }
{
    let along = pass_along(code, at, left);
    let behind = along.at;
    let steps = along.steps;
    if left <= steps {
        return Some((true, behind, steps));
    }
    if code.len() <= behind {
        return Some((true, behind, steps));
    }
    let Some((p, next, n)) = pass_over(code, behind) else {
        if steps == 0 {
            return None;
        }
        return Some((true, behind, steps));
    };
    Some((p, next, steps + n))
}

// Where instructions are passed over, up to the pick; else none.
pub fn pass_first(
    code: &[u8],
    at: usize,
    passing: bool,
    left: usize,
) -> Option<(bool, usize, usize)>
    requires { (at < length code.now) × (0 < left) }
    ensures { FirstBy code.now at passing left result }
{
    if passing {
        return pass_on(code, at, left);
    }
    Some((false, at, 0))
}
