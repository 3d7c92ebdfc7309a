// The instructions at a place of the code that are not passed over, read and done: one match on the code byte, the operand read in its arm. The registers are passed one by
// one: a struct that holds flags has a gap, which the loop of a run would copy.
ghost use Rattle.std.specs.Prelude.{◌≡◌, false, ◌+◌, ◌≤◌, ◌<◌, length};
ghost use Rattle.limits.specs.Limits.{stack_limit};
ghost use Rattle.leb128.specs.Numbers.{number_at};
ghost use Rattle.leb128.specs.Results.{number_read};
ghost use Rattle.machine.specs.Inner.Memory.{OneEach, RangedIn};
ghost use Rattle.machine.specs.Inner.Dispatch.{registers, dispatched_of, DispatchedBy, LookaheadBy};

use crate::{Registers, Stepped, values};

// How many values are held, whether the variable at hand was picked, whether instructions are passed over; the place behind, and how many
// instructions were done. Or the number of the first one's refusal. Or the first one is a timer, and nothing was done.
#[derive(Clone, Copy)]
pub enum Dispatched {
    On(usize, bool, bool, usize, usize),
    Refused(u8),
    Timed,
}

// The operand of the instruction at a place, and the place behind it.
fn operand(code: &[u8], at: usize) -> Option<(u64, usize)>
    requires { at < length code.now }
    ensures { number_read result ≡ number_at code.now (at + 1) }
{
    leb128::unsigned_at(code, at + 1)
}

// One instruction was done.
fn onward(next: usize, s: Stepped) -> Dispatched
    ensures { result ≡ dispatched_of next s }
{
    match s {
        Stepped::Next(t) => Dispatched::On(t.held, t.picked, t.passing, next, 1),
        Stepped::Refused(number) => Dispatched::Refused(number),
    }
}

// An instruction that is not passed over: one match on the code byte, the project's form, since the image's bytes are what is run.
fn dispatch_one(
    code: &[u8],
    low: &[i32],
    high: &[i32],
    prev: &[i32],
    cur: &mut [i32],
    vals: &mut [i32],
    at: usize,
    held: usize,
    picked: bool,
) -> Dispatched
    requires at_in_bounds { (at < length code.now) × (held ≤ stack_limit) × (stack_limit ≤ length vals.old) }
    requires one_each { OneEach low.now high.now prev.now cur.old }
    ensures { DispatchedBy code.now (RangedIn low.now high.now) prev.now at (registers held picked false)
        vals.old cur.old vals.new cur.new 1 result }
{
    let byte = code[at];
    let behind = at + 1;
    let m = Registers {
        held,
        picked,
        passing: false,
    };
    match byte {
        1 => {
            let Some((n, next)) = operand(code, at) else {
                return Dispatched::Refused(limits::BROKEN_IMAGE);
            };
            onward(next, crate::act(low, high, prev, cur, vals, m, 1, n))
        }
        2 => {
            let Some((n, next)) = operand(code, at) else {
                return Dispatched::Refused(limits::BROKEN_IMAGE);
            };
            onward(next, crate::act(low, high, prev, cur, vals, m, 2, n))
        }
        3 => {
            let Some((n, next)) = operand(code, at) else {
                return Dispatched::Refused(limits::BROKEN_IMAGE);
            };
            onward(next, crate::act(low, high, prev, cur, vals, m, 3, n))
        }
        4..=8 => onward(behind, crate::held::calculate(vals, m, byte)),
        9 => onward(behind, crate::act(low, high, prev, cur, vals, m, 9, 0)),
        10..=15 => onward(behind, crate::held::relate(vals, m, byte)),
        16 => onward(behind, crate::act(low, high, prev, cur, vals, m, 16, 0)),
        17 => onward(behind, crate::act(low, high, prev, cur, vals, m, 17, 0)),
        18 => onward(behind, crate::act(low, high, prev, cur, vals, m, 18, 0)),
        19 => onward(behind, crate::act(low, high, prev, cur, vals, m, 19, 0)),
        20 => {
            let Some((n, next)) = operand(code, at) else {
                return Dispatched::Refused(limits::BROKEN_IMAGE);
            };
            onward(next, crate::act(low, high, prev, cur, vals, m, 20, n))
        }
        21 => {
            let Some((n, next)) = operand(code, at) else {
                return Dispatched::Refused(limits::BROKEN_IMAGE);
            };
            onward(next, crate::act(low, high, prev, cur, vals, m, 21, n))
        }
        22 => {
            let Some((n, next)) = operand(code, at) else {
                return Dispatched::Refused(limits::BROKEN_IMAGE);
            };
            onward(next, crate::act(low, high, prev, cur, vals, m, 22, n))
        }
        23 => Dispatched::Timed,
        24 => {
            let Some((n, next)) = operand(code, at) else {
                return Dispatched::Refused(limits::BROKEN_IMAGE);
            };
            onward(next, crate::act(low, high, prev, cur, vals, m, 24, n))
        }
        25 => {
            let Some((n, next)) = operand(code, at) else {
                return Dispatched::Refused(limits::BROKEN_IMAGE);
            };
            onward(next, crate::act(low, high, prev, cur, vals, m, 25, n))
        }
        _ => Dispatched::Refused(limits::BROKEN_IMAGE),
    }
}

// What a current or previous value, a constant and a comparison find, that stand at a place with operands of one byte, where three instructions may be
// done; or others stand there.
fn comparison_at(
    code: &[u8],
    prev: &[i32],
    cur: &[i32],
    at: usize,
    held: usize,
    left: usize,
) -> Option<bool>
    requires { (at < length code.now) × (held ≤ stack_limit) × (length cur.now ≡ length prev.now) }
    ensures { LookaheadBy code.now prev.now cur.now at held left result }
{
    let byte = code[at];
    if byte < 2 {
        return None;
    }
    if 3 < byte {
        return None;
    }
    if code.len() <= at + 4 {
        return None;
    }
    if code[at + 2] != 1 {
        return None;
    }
    let op = code[at + 4];
    if op < 10 {
        return None;
    }
    if 15 < op {
        return None;
    }
    if left < 3 {
        return None;
    }
    let id = u64::from(code[at + 1]);
    if 127 < id {
        return None;
    }
    let i = id as usize;
    if prev.len() <= i {
        return None;
    }
    let n = u64::from(code[at + 3]);
    if 127 < n {
        return None;
    }
    if limits::STACK_LIMIT <= held + 1 {
        return None;
    }
    if byte == 3 {
        return Some(values::truth(op, prev[i], leb128::unzigzag(n)));
    }
    Some(values::truth(op, cur[i], leb128::unzigzag(n)))
}

// What stands at a place inside the code, of at most `left` instructions: a comparison of a value with a constant at once, else one instruction.
pub fn dispatch(
    code: &[u8],
    low: &[i32],
    high: &[i32],
    prev: &[i32],
    cur: &mut [i32],
    vals: &mut [i32],
    at: usize,
    held: usize,
    picked: bool,
    left: usize,
) -> Dispatched
    requires at_in_bounds { (at < length code.now) × (held ≤ stack_limit) × (stack_limit ≤ length vals.old) × (0 < left) }
    requires one_each { OneEach low.now high.now prev.now cur.old }
    ensures { DispatchedBy code.now (RangedIn low.now high.now) prev.now at (registers held picked false)
        vals.old cur.old vals.new cur.new left result }
{
    let Some(t) = comparison_at(code, prev, cur, at, held, left) else {
        return dispatch_one(code, low, high, prev, cur, vals, at, held, picked);
    };
    vals[held] = values::bit_of(t);
    Dispatched::On(held + 1, picked, false, at + 5, 3)
}
