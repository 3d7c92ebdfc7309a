// Check and run in one pass over the code: each instruction is read once, moves the walk and is done. Where it breaks soundness the place is
// answered; where the machine refuses it, the walk alone goes on, since an instruction behind that breaks soundness comes first.
#![tactic(auto)]

ghost use Rattle.std.specs.Prelude.{◌≡◌, true, false, ◌+◌, ◌≤◌, ◌<◌, length};
ghost use Rattle.limits.specs.Limits.{name_limit, stack_limit};
ghost use Rattle.leb128.specs.Numbers.{number_at};
ghost use Rattle.leb128.specs.Results.{number_read};
ghost use Rattle.checker.specs.Inner.Walk.{open_of, Small};
ghost use Rattle.machine.specs.Inner.Memory.{OneEach};
ghost use Rattle.fused.specs.Inner.Passes.{PassesBy, Ready, MovesBy, RefusedBy, BrokenBy, RunBy};

use ahead::Leap;
use checker::advance::Walk;
use checker::{Verdict, advance};
use machine::{Registers, held};
use moves::{onward, over};

pub mod act;
pub mod ahead;
pub mod moves;

// The walk before an instruction, and the place of that instruction; whether the variable at hand was picked, and whether
// instructions are passed over. As many values are held as the walk knows of, none while instructions are passed over.
#[derive(Clone, Copy)]
pub struct Progress {
    pub walk: Walk,
    pub at: usize,
    pub picked: bool,
    pub passing: bool,
}

// The progress behind an instruction, with the number of the machine's refusal; or the instruction breaks soundness.
#[derive(Clone, Copy)]
pub enum Moved {
    On(Progress),
    Refused(Progress, u8),
    Broken,
}

// The steps of a run to the end of sound code; the number of its refusal and the steps; or the place in the code that breaks soundness. Timers are not worked
// here: a code that has one may end so.
#[derive(Clone, Copy)]
pub enum Ended {
    Done(usize),
    Refused(u8, usize),
    Broken(usize),
    Timed,
}

// The operand of the instruction at a place, and the place behind it.
fn operand(code: &[u8], at: usize) -> Option<(u64, usize)>
    requires { at < length code.now }
    ensures { number_read result ≡ number_at code.now (at + 1) }
{
    leb128::unsigned_at(code, at + 1)
}

// Between a gate and its pick only codes 1 to 9 stand: a match of its own on the code byte, shorter than that of `advance_one`.
fn pass(code: &[u8], b: Progress) -> Moved
    requires { Small b.walk × (b.at < length code.now) × (open_of b.walk.gate ≡ true) }
    ensures { PassesBy code.now b result }
{
    let at = b.at;
    let byte = code[at];
    let behind = at + 1;
    let w = b.walk;
    match byte {
        1 => {
            let Some((_, next)) = operand(code, at) else {
                return Moved::Broken;
            };
            over(b, next, true, advance::push(w))
        }
        2 => {
            let Some((n, next)) = operand(code, at) else {
                return Moved::Broken;
            };
            over(b, next, true, advance::current(w, n))
        }
        3 => {
            let Some((n, next)) = operand(code, at) else {
                return Moved::Broken;
            };
            over(b, next, true, advance::previous(w, n))
        }
        4..=8 => over(
            b,
            behind,
            true,
            advance::join(w, advance::NUMBER, advance::NUMBER),
        ),
        9 => over(b, behind, true, advance::keep(w, advance::NUMBER)),
        20 => {
            let Some((n, next)) = operand(code, at) else {
                return Moved::Broken;
            };
            over(b, next, false, advance::pick(w, advance::CHANGING, n))
        }
        24 => {
            let Some((n, next)) = operand(code, at) else {
                return Moved::Broken;
            };
            over(b, next, false, advance::pick(w, advance::RISING, n))
        }
        25 => {
            let Some((n, next)) = operand(code, at) else {
                return Moved::Broken;
            };
            over(b, next, false, advance::pick(w, advance::FALLING, n))
        }
        _ => Moved::Broken,
    }
}

// The instruction at hand, not passed over: one match on its code byte. The walk moves, then the machine; where both are called with a fixed code, the compiler
// works the call out for that code.
fn advance_one(
    code: &[u8],
    low: &[i32],
    high: &[i32],
    prev: &[i32],
    cur: &mut [i32],
    vals: &mut [i32],
    b: Progress,
) -> Moved
    requires ready { Ready low.now high.now prev.now cur.old vals.old b }
    requires at_in_bounds { (b.at < length code.now) × (b.passing ≡ false) }
    ensures { MovesBy code.now low.now high.now prev.now b vals.old cur.old vals.new cur.new result }
{
    let at = b.at;
    let byte = code[at];
    let behind = at + 1;
    let w = b.walk;
    let m = Registers {
        held: w.held as usize,
        picked: b.picked,
        passing: false,
    };
    match byte {
        1 => {
            let Some((n, next)) = operand(code, at) else {
                return Moved::Broken;
            };
            let Some(k) = advance::push(w) else {
                return Moved::Broken;
            };
            onward(k, next, machine::act(low, high, prev, cur, vals, m, 1, n))
        }
        2 => {
            let Some((n, next)) = operand(code, at) else {
                return Moved::Broken;
            };
            let Some(k) = advance::current(w, n) else {
                return Moved::Broken;
            };
            onward(k, next, machine::act(low, high, prev, cur, vals, m, 2, n))
        }
        3 => {
            let Some((n, next)) = operand(code, at) else {
                return Moved::Broken;
            };
            let Some(k) = advance::previous(w, n) else {
                return Moved::Broken;
            };
            onward(k, next, machine::act(low, high, prev, cur, vals, m, 3, n))
        }
        4..=8 => {
            let Some(k) = advance::join(w, advance::NUMBER, advance::NUMBER) else {
                return Moved::Broken;
            };
            onward(k, behind, held::calculate(vals, m, byte))
        }
        9 => {
            let Some(k) = advance::keep(w, advance::NUMBER) else {
                return Moved::Broken;
            };
            onward(k, behind, machine::act(low, high, prev, cur, vals, m, 9, 0))
        }
        10..=15 => {
            let Some(k) = advance::test(w, advance::NUMBER) else {
                return Moved::Broken;
            };
            onward(k, behind, held::relate(vals, m, byte))
        }
        16 => {
            let Some(k) = advance::invert(w) else {
                return Moved::Broken;
            };
            onward(
                k,
                behind,
                machine::act(low, high, prev, cur, vals, m, 16, 0),
            )
        }
        17 => {
            let Some(k) = advance::test(w, advance::TRUTH) else {
                return Moved::Broken;
            };
            onward(
                k,
                behind,
                machine::act(low, high, prev, cur, vals, m, 17, 0),
            )
        }
        18 => {
            let Some(k) = advance::test(w, advance::TRUTH) else {
                return Moved::Broken;
            };
            onward(
                k,
                behind,
                machine::act(low, high, prev, cur, vals, m, 18, 0),
            )
        }
        19 => {
            let Some(k) = advance::gate(w) else {
                return Moved::Broken;
            };
            onward(
                k,
                behind,
                machine::act(low, high, prev, cur, vals, m, 19, 0),
            )
        }
        20 => {
            let Some((n, next)) = operand(code, at) else {
                return Moved::Broken;
            };
            let Some(k) = advance::pick(w, advance::CHANGING, n) else {
                return Moved::Broken;
            };
            onward(k, next, machine::act(low, high, prev, cur, vals, m, 20, n))
        }
        21 => {
            let Some((n, next)) = operand(code, at) else {
                return Moved::Broken;
            };
            let Some(k) = advance::assign(w, n) else {
                return Moved::Broken;
            };
            onward(k, next, machine::act(low, high, prev, cur, vals, m, 21, n))
        }
        22 => {
            let Some((n, next)) = operand(code, at) else {
                return Moved::Broken;
            };
            let Some(k) = advance::settle(w, n) else {
                return Moved::Broken;
            };
            onward(k, next, machine::act(low, high, prev, cur, vals, m, 22, n))
        }
        24 => {
            let Some((n, next)) = operand(code, at) else {
                return Moved::Broken;
            };
            let Some(k) = advance::pick(w, advance::RISING, n) else {
                return Moved::Broken;
            };
            onward(k, next, machine::act(low, high, prev, cur, vals, m, 24, n))
        }
        25 => {
            let Some((n, next)) = operand(code, at) else {
                return Moved::Broken;
            };
            let Some(k) = advance::pick(w, advance::FALLING, n) else {
                return Moved::Broken;
            };
            onward(k, next, machine::act(low, high, prev, cur, vals, m, 25, n))
        }
        _ => Moved::Broken,
    }
}

// Where the machine refuses, the walk alone goes on.
fn refused(code: &[u8], behind: usize, w: Walk, number: u8, steps: usize) -> Ended
    requires { Small w }
    ensures { RefusedBy code.now behind w number steps result }
{
    match checker::walk_from(code, behind, w) {
        Verdict::Sound => Ended::Refused(number, steps),
        Verdict::Broken(at) => Ended::Broken(at),
        Verdict::Timed => Ended::Timed,
    }
}

// A code that breaks here, or has a timer.
fn broken(code: &[u8], at: usize) -> Ended
    requires { at < length code.now }
    ensures { BrokenBy code.now at result }
{
    if code[at] == 23 {
        return Ended::Timed;
    }
    Ended::Broken(at)
}

// The whole code, from nothing held, on current values that hold the row.
fn run_in(
    code: &[u8],
    low: &[i32],
    high: &[i32],
    prev: &[i32],
    cur: &mut [i32],
    vals: &mut [i32],
    inputs: usize,
) -> Ended
    requires one_each { OneEach low.now high.now prev.now cur.old }
    requires inputs_in_bounds { (inputs ≤ length low.now) × (length low.now ≤ name_limit) × (stack_limit ≤ length vals.old) }
    ensures { RunBy code.now low.now high.now prev.now inputs cur.old cur.new result }
{
    let mut b = Progress {
        walk: checker::initial(inputs, low.len()),
        at: 0,
        picked: false,
        passing: false,
    };
    let mut steps = 0;
    // two `while`s: the place moves on by the length of what is read, and the inner one ends where instructions are passed over
    'code: while b.at < code.len() {
        match ahead::pass_first(code, prev, cur, b) {
            Leap::On(k, n) => {
                b = k;
                steps += n;
            }
            Leap::Refused(_, number) => {
                return Ended::Refused(number, steps);
            }
            Leap::Broken => {
                return broken(code, b.at);
            }
        }
        while b.at < code.len() {
            if b.passing {
                break;
            }
            let s = act::act(code, low, high, prev, cur, vals, b);
            b = s.progress;
            steps += s.steps;
            if code.len() <= b.at {
                break;
            }
            let m = ahead::advance_ahead(code, low, high, prev, cur, vals, b);
            match m {
                Leap::On(k, n) => {
                    b = k;
                    steps += n;
                }
                Leap::Refused(k, number) => {
                    let behind = k.at;
                    let w = k.walk;
                    return refused(code, behind, w, number, steps + 1);
                }
                Leap::Broken => {
                    return broken(code, b.at);
                }
            }
        }
    }
    let w = b.walk;
    if checker::complete(w) {
        return Ended::Done(steps);
    }
    Ended::Broken(code.len())
}

// The same, with a stack of its own for the values held.
pub fn run(
    code: &[u8],
    low: &[i32],
    high: &[i32],
    prev: &[i32],
    cur: &mut [i32],
    inputs: usize,
) -> Ended
    requires one_each { OneEach low.now high.now prev.now cur.old }
    requires inputs_in_bounds { (inputs ≤ length low.now) × (length low.now ≤ name_limit) }
    ensures { RunBy code.now low.now high.now prev.now inputs cur.old cur.new result }
{
    let mut vals = [0i32; limits::STACK_LIMIT];
    run_in(code, low, high, prev, cur, &mut vals, inputs)
}
