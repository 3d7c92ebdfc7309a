// Instructions that put a value on top or work on those on top, as many as stand here: while they are done nothing moves but what is held, so that the
// compiler keeps it in registers. Anything else, and whatever would break soundness or be refused, is left to `advance_one`.
ghost use Rattle.std.specs.Prelude.{◌≡◌, true, false, ◌+◌, ◌^◌, ◌≤◌, ◌<◌, length};
ghost use Rattle.limits.specs.Limits.{stack_limit};
ghost use Rattle.bytecode.specs.Instructions.{operation, operation_of, negated};
ghost use Rattle.checker.specs.Inner.Walk.{Small};
ghost use Rattle.fused.specs.Inner.Passes.{Ready};
ghost use Rattle.fused.specs.Inner.Acts.{done_of, ActedBy, SmallOn, PutBy, DoneBy, RelatedBy, ActedHere, PutOnBy, StretchedBy, Shut, shut_of};

use crate::{Progress, ahead};
use checker::advance;
use checker::advance::Walk;
use machine::values;

// The progress behind instructions that are done, and how many they are.
#[derive(Clone, Copy)]
pub struct Stretch {
    pub progress: Progress,
    pub steps: usize,
}

// One instruction, with the walk and the place behind it. Here and below: the progress behind instructions that are done, and how many they are; or it is
// another, and nothing is done.
fn done(b: Progress, k: Walk, next: usize) -> Option<(Progress, usize)>
    ensures { result ≡ done_of b k next }
{
    let p = Progress {
        walk: k,
        at: next,
        picked: b.picked,
        passing: false,
    };
    Some((p, 1))
}

// Codes 1 to 3: a value is put on top.
fn put(vals: &mut [i32], b: Progress, next: usize, v: i32) -> Option<(Progress, usize)>
    requires { Small b.walk × (stack_limit ≤ length vals.old) }
    ensures put_by { PutBy next v b vals.old vals.new result }
    ensures small_on { SmallOn result }
{
    let w = b.walk;
    let k = advance::push(w)?;
    let h = w.held as usize;
    if limits::STACK_LIMIT <= h {
        return None;
    }
    vals[h] = v;
    done(b, k, next)
}

// Codes 4 to 8.
fn calculate(vals: &mut [i32], b: Progress, next: usize, byte: u8) -> Option<(Progress, usize)>
    requires { Small b.walk × (stack_limit ≤ length vals.old) }
    ensures { DoneBy (operation (operation_of byte)) next b vals.old vals.new result }
{
    let w = b.walk;
    let k = advance::join(w, advance::NUMBER, advance::NUMBER)?;
    let h = w.held as usize;
    if h < 2 {
        return None;
    }
    let left = h - 2;
    let right = h - 1;
    let v = values::calculated(byte, vals[left], vals[right])?;
    vals[left] = v;
    done(b, k, next)
}

// Codes 10 to 15, 17 and 18.
fn relate(
    vals: &mut [i32],
    b: Progress,
    next: usize,
    byte: u8,
    sort: u64,
) -> Option<(Progress, usize)>
    requires { Small b.walk × (sort < 2) × (stack_limit ≤ length vals.old) }
    ensures { RelatedBy byte sort next b vals.old vals.new result }
{
    let w = b.walk;
    let k = advance::test(w, sort)?;
    let h = w.held as usize;
    if h < 2 {
        return None;
    }
    let left = h - 2;
    let right = h - 1;
    let v = values::bit_of(values::truth(byte, vals[left], vals[right]));
    vals[left] = v;
    done(b, k, next)
}

// Code 16.
fn invert(vals: &mut [i32], b: Progress, next: usize) -> Option<(Progress, usize)>
    requires { Small b.walk × (stack_limit ≤ length vals.old) }
    ensures { DoneBy negated next b vals.old vals.new result }
{
    let w = b.walk;
    let k = advance::invert(w)?;
    let h = w.held as usize;
    if h == 0 {
        return None;
    }
    let top = h - 1;
    let v = values::bit_of(!values::is_yes(vals[top]));
    vals[top] = v;
    done(b, k, next)
}

// The operation or comparison that stands here, on the two numbers on top: a match on the code byte, as in `advance_one`.
fn work(code: &[u8], vals: &mut [i32], b: Progress) -> Option<(Progress, usize)>
    requires { Small b.walk × (b.at < length code.now) × (stack_limit ≤ length vals.old) }
    ensures { ActedHere code.now b vals.old vals.new result }
{
    let at = b.at;
    let byte = code[at];
    match byte {
        4..=8 => calculate(vals, b, at + 1, byte),
        10..=15 => relate(vals, b, at + 1, byte, advance::NUMBER),
        _ => None,
    }
}

// Code 1: the constant is put on top, and the operation or comparison behind it, if one stands there, is done too.
fn put_constant(
    code: &[u8],
    vals: &mut [i32],
    b: Progress,
    next: usize,
    v: i32,
) -> Option<(Progress, usize)>
    requires { Small b.walk × (stack_limit ≤ length vals.old) }
    ensures { PutOnBy code.now next v b vals.old vals.new result }
{
    let (p, _) = put(vals, b, next, v)?;
    if code.len() <= p.at {
        return Some((p, 1));
    }
    let Some((q, _)) = work(code, vals, p) else {
        return Some((p, 1));
    };
    Some((q, 2))
}

// One instruction, or a constant and what works on it: a match on the code byte, as in `advance_one`.
fn act_one(
    code: &[u8],
    low: &[i32],
    high: &[i32],
    prev: &[i32],
    cur: &[i32],
    vals: &mut [i32],
    b: Progress,
) -> Option<(Progress, usize)>
    requires ready { Ready low.now high.now prev.now cur.now vals.old b }
    requires at_in_bounds { (b.at < length code.now) × (b.passing ≡ false) }
    ensures { ActedBy code.now low.now high.now prev.now b vals.old cur.now vals.new result }
{
    let at = b.at;
    let behind = at + 1;
    let w = b.walk;
    let byte = code[at];
    match byte {
        1 => {
            let (n, next) = leb128::unsigned_at(code, behind)?;
            put_constant(code, vals, b, next, leb128::unzigzag(n))
        }
        2 => {
            let (n, next) = leb128::unsigned_at(code, behind)?;
            if w.names <= n {
                return None;
            }
            if !advance::is_known(w, n) {
                return None;
            }
            let i = n as usize;
            put(vals, b, next, cur[i])
        }
        3 => {
            let (n, next) = leb128::unsigned_at(code, behind)?;
            if w.names <= n {
                return None;
            }
            let i = n as usize;
            put(vals, b, next, prev[i])
        }
        4..=8 => calculate(vals, b, behind, byte),
        10..=15 => relate(vals, b, behind, byte, advance::NUMBER),
        16 => invert(vals, b, behind),
        17 => relate(vals, b, behind, 17, advance::TRUTH),
        18 => relate(vals, b, behind, 18, advance::TRUTH),
        _ => None,
    }
}

// An operation or comparison that stands ahead, else one instruction.
fn act_ahead(
    code: &[u8],
    low: &[i32],
    high: &[i32],
    prev: &[i32],
    cur: &[i32],
    vals: &mut [i32],
    b: Progress,
) -> Option<(Progress, usize)>
    requires ready { Ready low.now high.now prev.now cur.now vals.old b }
    requires at_in_bounds { (b.at < length code.now) × (b.passing ≡ false) }
    ensures { ActedBy code.now low.now high.now prev.now b vals.old cur.now vals.new result }
{
    let at = b.at;
    let w = b.walk;
    let Some((v, sort)) = ahead::pair_ahead(code, prev, cur, at, w) else {
        return act_one(code, low, high, prev, cur, vals, b);
    };
    let h = w.held as usize;
    vals[h] = v;
    let mut k = w;
    k.held = w.held + 1;
    k.sorts = w.sorts * 2 + sort;
    let p = Progress {
        walk: k,
        at: at + 5,
        picked: b.picked,
        passing: false,
    };
    Some((p, 3))
}

// As many of them as stand here.
pub fn act(
    code: &[u8],
    low: &[i32],
    high: &[i32],
    prev: &[i32],
    cur: &[i32],
    vals: &mut [i32],
    first: Progress,
) -> Stretch
    requires ready { Ready low.now high.now prev.now cur.now vals.old first }
    requires passing_value { first.passing ≡ false }
    ensures { StretchedBy code.now low.now high.now prev.now first vals.old cur.now result.steps result.progress vals.new }
{
    let mut b = first;
    let mut steps = 0;
    // a `while`: the place moves on by an instruction's length, which is known when it is read
    while b.at < code.len() {
        let Some((k, n)) = act_ahead(code, low, high, prev, cur, vals, b) else {
            break;
        };
        b = k;
        steps += n;
    }
    Stretch { progress: b, steps }
}

// A gate on a no is at hand: instructions are passed over from there on.
pub fn shuts(code: &[u8], vals: &[i32], b: Progress) -> bool
    requires { (b.at < length code.now) × (stack_limit ≤ length vals.now) }
    ensures { result ≡ true → Shut code.now vals.now b }
{
    let w = b.walk;
    let at = b.at;
    if code[at] != 19 {
        return false;
    }
    if w.gate != 0 {
        return false;
    }
    if w.held != 1 {
        return false;
    }
    if w.sorts % 2 != 1 {
        return false;
    }
    !values::is_yes(vals[0])
}

// The progress behind it.
pub fn shut(b: Progress) -> Progress
    requires { b.at + 1 < 2 ^ 64 }
    ensures { result ≡ shut_of b }
{
    let w = b.walk;
    Progress {
        walk: Walk {
            held: 0,
            sorts: 0,
            gate: 1,
            picking: w.picking,
            known: w.known,
            names: w.names,
        },
        at: b.at + 1,
        picked: b.picked,
        passing: true,
    }
}
