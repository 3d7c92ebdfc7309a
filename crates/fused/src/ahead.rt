// Instructions that stand ahead together are done as one: a value, a constant and an operation or comparison on the two; and, where instructions are
// passed over, those up to the pick. Anything else, and whatever would break soundness or be refused, goes one instruction at a time.
ghost use Rattle.std.specs.Prelude.{◌≡◌, true, false, ◌≤◌, ◌<◌, length};
ghost use Rattle.checker.specs.Inner.Walk.{open_of, Small};
ghost use Rattle.fused.specs.Inner.Passes.{Ready};
ghost use Rattle.fused.specs.Inner.Leaps.{FoundBy, SeenBy, with_held, SkippedBy, SkipsTo, SettledBy, leap_of, LeapsBy, LeapsOver, LeapsFirst};

use crate::{Moved, Progress, act};
use checker::advance;
use checker::advance::Walk;
use machine::values;

// The progress behind instructions, and how many were done; or what the first of them leads to.
#[derive(Clone, Copy)]
pub enum Leap {
    On(Progress, usize),
    Refused(Progress, u8),
    Broken,
}

// What an operation or comparison makes of two numbers, and its sort, where the walk lets it pass.
fn found(w: Walk, op: u8, a: i32, c: i32) -> Option<(i32, u64)>
    ensures { FoundBy w op a c result }
{
    match op {
        4..=8 => {
            let v = values::calculated(op, a, c)?;
            Some((v, advance::NUMBER))
        }
        10..=15 => {
            if w.gate != 0 {
                return None;
            }
            Some((values::bit_of(values::truth(op, a, c)), advance::TRUTH))
        }
        _ => None,
    }
}

// The same of a current or previous value, a constant, and an operation or comparison, with operands of one byte, that the walk lets pass.
pub fn pair_ahead(code: &[u8], prev: &[i32], cur: &[i32], at: usize, w: Walk) -> Option<(i32, u64)>
    requires { Small w × (at < length code.now) × (w.names ≤ length prev.now) × (w.names ≤ length cur.now) }
    ensures { SeenBy code.now prev.now cur.now at w result }
{
    let byte = code[at];
    if byte < 2 {
        return None;
    }
    if 3 < byte {
        return None;
    }
    if code.len() <= at + 4 {
        return None;
    }
    if code[at + 2] != 1 {
        return None;
    }
    let op = code[at + 4];
    if op < 4 {
        return None;
    }
    if 15 < op {
        return None;
    }
    let id = u64::from(code[at + 1]);
    if w.names <= id {
        return None;
    }
    let n = u64::from(code[at + 3]);
    if 127 < n {
        return None;
    }
    if (limits::STACK_LIMIT as u64) <= w.held + 1 {
        return None;
    }
    let i = id as usize;
    if byte == 3 {
        return found(w, op, prev[i], leb128::unzigzag(n));
    }
    if !advance::is_known(w, id) {
        return None;
    }
    found(w, op, cur[i], leb128::unzigzag(n))
}

// How many values are held behind instructions that are passed over, the place behind them, and how many they are.
#[derive(Clone, Copy)]
pub struct Passage {
    pub held: u64,
    pub at: usize,
    pub steps: usize,
}

// Codes 1 to 8, where so many numbers are held and nothing else: how many are held behind the one that is passed over, and the place behind it; or it is
// another.
fn skip_one(code: &[u8], at: usize, held: u64, w: Walk) -> Option<(u64, usize)>
    requires { Small w × Small (with_held w held) × (w.sorts ≡ 0) × (at < length code.now) }
    ensures { SkippedBy code.now w held at result }
{
    let byte = code[at];
    if 8 < byte {
        return None;
    }
    if 3 < byte {
        if held < 2 {
            return None;
        }
        return Some((held - 1, at + 1));
    }
    if (limits::STACK_LIMIT as u64) <= held {
        return None;
    }
    let (n, next) = leb128::unsigned_at(code, at + 1)?;
    if byte == 1 {
        return Some((held + 1, next));
    }
    if byte == 3 {
        if w.names <= n {
            return None;
        }
        return Some((held + 1, next));
    }
    if byte == 0 {
        return None;
    }
    if advance::is_known(w, n) {
        return Some((held + 1, next));
    }
    None
}

// As many of them as stand here.
fn skip(code: &[u8], from: usize, w: Walk) -> Passage
    requires { Small w }
    ensures { SkipsTo code.now w from result.steps (with_held w result.held) result.at }
{
    let mut held = w.held;
    let mut at = from;
    let mut steps = 0;
    if w.sorts == 0 {
        // a `while`: the place moves on by an instruction's length, which is known when it is read
        while at < code.len() {
            let Some((more, next)) = skip_one(code, at, held, w) else {
                break;
            };
            held = more;
            at = next;
            steps += 1;
        }
    }
    Passage { held, at, steps }
}

// The progress behind a settle that the walk lets pass; or none stands here.
fn settle_ahead(code: &[u8], prev: &[i32], cur: &mut [i32], b: Progress) -> Option<Progress>
    requires { Small b.walk × (b.walk.names ≤ length prev.now) × (length cur.old ≡ length prev.now) }
    ensures { SettledBy code.now prev.now b cur.old cur.new result }
{
    let at = b.at;
    let w = b.walk;
    if code.len() <= at {
        return None;
    }
    if code[at] != 22 {
        return None;
    }
    let (n, next) = leb128::unsigned_at(code, at + 1)?;
    let k = advance::settle(w, n)?;
    if w.names <= n {
        return None;
    }
    if !b.picked {
        let i = n as usize;
        cur[i] = prev[i];
    }
    Some(Progress {
        walk: k,
        at: next,
        picked: false,
        passing: false,
    })
}

// Where instructions are passed over: those up to the pick, the pick, and a settle behind it; until then the walk alone moves. Where one behind
// the first breaks soundness, those before it.
fn pass_on(code: &[u8], prev: &[i32], cur: &mut [i32], b: Progress) -> Leap
    requires small { Small b.walk × (b.at < length code.now) × (open_of b.walk.gate ≡ true) × (b.passing ≡ true) }
    requires names_in_bounds { (b.walk.names ≤ length prev.now) × (length cur.old ≡ length prev.now) }
    ensures { LeapsOver code.now prev.now b cur.old cur.new result }
{
    let w = b.walk;
    let s = skip(code, b.at, w);
    let mut k = w;
    k.held = s.held;
    let p = Progress {
        walk: k,
        at: s.at,
        picked: b.picked,
        passing: true,
    };
    if code.len() <= s.at {
        return Leap::On(p, s.steps);
    }
    match crate::pass(code, p) {
        Moved::On(q) => {
            let Some(t) = settle_ahead(code, prev, cur, q) else {
                return Leap::On(q, s.steps + 1);
            };
            Leap::On(t, s.steps + 2)
        }
        Moved::Refused(q, number) => Leap::Refused(q, number),
        Moved::Broken => {
            if s.steps == 0 {
                return Leap::Broken;
            }
            Leap::On(p, s.steps)
        }
    }
}

// Where instructions are passed over, up to the pick; else none.
pub fn pass_first(code: &[u8], prev: &[i32], cur: &mut [i32], b: Progress) -> Leap
    requires small { Small b.walk × (b.at < length code.now) × (b.passing ≡ true → open_of b.walk.gate ≡ true) }
    requires names_in_bounds { (b.walk.names ≤ length prev.now) × (length cur.old ≡ length prev.now) }
    ensures { LeapsFirst code.now prev.now b cur.old cur.new result }
{
    if b.passing {
        return pass_on(code, prev, cur, b);
    }
    Leap::On(b, 0)
}

// One instruction.
fn single(m: Moved) -> Leap
    ensures { result ≡ leap_of m }
{
    match m {
        Moved::On(k) => Leap::On(k, 1),
        Moved::Refused(k, number) => Leap::Refused(k, number),
        Moved::Broken => Leap::Broken,
    }
}

// One instruction, where none are passed over. Most gates are on a no and tested first.
pub fn advance_ahead(
    code: &[u8],
    low: &[i32],
    high: &[i32],
    prev: &[i32],
    cur: &mut [i32],
    vals: &mut [i32],
    b: Progress,
) -> Leap
    requires ready { Ready low.now high.now prev.now cur.old vals.old b }
    requires at_in_bounds { (b.at < length code.now) × (b.passing ≡ false) }
    ensures { LeapsBy code.now low.now high.now prev.now b vals.old cur.old vals.new cur.new result }
{
    if act::shuts(code, vals, b) {
        return Leap::On(act::shut(b), 1);
    }
    single(crate::advance_one(code, low, high, prev, cur, vals, b))
}
