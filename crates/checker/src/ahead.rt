// Instructions that stand ahead together are taken by the walk as one: a value, a constant and their comparison; a constant and its operation.
// Anything else, and whatever would break soundness, goes one instruction at a time.
ghost use Rattle.std.specs.Prelude.{◌≡◌, true, ◌+◌, ◌<◌, length};
ghost use Rattle.bytecode.specs.Instructions.{fetch_one};
ghost use Rattle.bytecode.specs.Results.{single_read, SingleWithin};
ghost use Rattle.checker.specs.Inner.Walk.{Small};
ghost use Rattle.checker.specs.Inner.Stretches.{with_sort, LeadsTo, TakenBy};

use crate::advance;
use crate::advance::Walk;

// A current or previous value, a constant and a comparison, with operands of one byte: a yes-no more is held.
fn comparison_ahead(code: &[u8], at: usize, w: Walk) -> bool
    requires { (Small w) × (at < length code.now) }
    ensures { result ≡ true → LeadsTo code.now at w (at + 5) (with_sort w 1) }
{
    let byte = code[at];
    if byte < 2 {
        return false;
    }
    if 3 < byte {
        return false;
    }
    if code.len() <= at + 4 {
        return false;
    }
    if code[at + 2] != 1 {
        return false;
    }
    let op = code[at + 4];
    if op < 10 {
        return false;
    }
    if 15 < op {
        return false;
    }
    if 127 < code[at + 3] {
        return false;
    }
    if w.gate != 0 {
        return false;
    }
    if (limits::STACK_LIMIT as u64) <= w.held + 1 {
        return false;
    }
    let id = u64::from(code[at + 1]);
    if byte == 3 {
        return id < w.names;
    }
    advance::is_known(w, id)
}

// A constant, with an operand of one byte, and an operation on it and the number below: the walk stays as it is.
fn operation_ahead(code: &[u8], at: usize, w: Walk) -> bool
    requires { (Small w) × (at < length code.now) }
    ensures { result ≡ true → LeadsTo code.now at w (at + 3) w }
{
    if code[at] != 1 {
        return false;
    }
    if code.len() <= at + 2 {
        return false;
    }
    let op = code[at + 2];
    if op < 4 {
        return false;
    }
    if 8 < op {
        return false;
    }
    if 127 < code[at + 1] {
        return false;
    }
    if w.held == 0 {
        return false;
    }
    if (limits::STACK_LIMIT as u64) <= w.held {
        return false;
    }
    w.sorts % 2 == advance::NUMBER
}

// The instruction at a place, if it is no timer: its code byte, its operand (0 where it has none) and the place behind. Only `single` calls it, so that it is compiled into the walk.
fn read(code: &[u8], at: usize) -> Option<(u8, u64, usize)>
    ensures result_value { single_read result ≡ fetch_one code.now at }
    ensures single_within { SingleWithin (length code.now) at result }
{
    if code.len() <= at {
        return None;
    }
    let byte = code[at];
    let behind = at + 1;
    if bytecode::has_operand(byte) {
        let (n, next) = leb128::unsigned_at(code, behind)?;
        return Some((byte, n, next));
    }
    Some((byte, 0, behind))
}

// One instruction: the walk and the place behind it; or it breaks soundness or is a timer.
fn single(code: &[u8], at: usize, w: Walk) -> Option<(Walk, usize)>
    requires { (Small w) × (at < length code.now) }
    ensures { TakenBy code.now at w result }
{
    let (byte, n, next) = read(code, at)?;
    let k = advance::advance(byte, n, w)?;
    Some((k, next))
}

// The same of the instructions at a place inside the code: those that stand together, else one.
pub fn ahead(code: &[u8], at: usize, w: Walk) -> Option<(Walk, usize)>
    requires { (Small w) × (at < length code.now) }
    ensures { TakenBy code.now at w result }
{
    if comparison_ahead(code, at, w) {
        let mut k = w;
        k.held = w.held + 1;
        k.sorts = w.sorts * 2 + advance::TRUTH;
        return Some((k, at + 5));
    }
    if operation_ahead(code, at, w) {
        return Some((w, at + 3));
    }
    single(code, at, w)
}
