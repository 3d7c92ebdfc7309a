// Timers: the instruction 23, read and worked.
ghost use Rattle.std.specs.Prelude.{◌≡◌, Bool, false, List, ℕ, ◌≤◌, ◌<◌, ◌^◌, ℤ, pos, length, get_or};
ghost use Rattle.limits.specs.Limits.{stack_limit};
ghost use Rattle.arith.specs.Inner.Flags.{flags_of};
ghost use Rattle.semantics.specs.Shape.{Setting, time_place, elapsed as elapsedOf, due as dueOf};
ghost use Rattle.bytecode.specs.Instructions.{timer as timing-of};
ghost use Rattle.machine.specs.Step.{perform};
ghost use Rattle.machine.specs.Inner.Memory.{TimingIn, SettingIn};
ghost use Rattle.machine.specs.Inner.Groups.{worked};
ghost use Rattle.machine.specs.Inner.Dispatch.{registers, WorkedBy};
ghost use Rattle.machine.specs.Inner.Passing.{PassedBy};

use crate::Timing;

// The place of t's elapsed time: behind the names, by timer id.
fn place(timing: Timing, t: usize) -> usize
    requires { timing.names < 2 ^ 62 }
    ensures { result ≡ time_place (flags_of timing.names timing.timers) t }
{
    let names = timing.names;
    let timers = timing.timers;
    if t < names {
        return names + arith::bits::count_below(timers, t);
    }
    names + arith::bits::count_below(timers, names)
}

// 0 if w is 0 or was 0; else the smaller of N and the time before with the milliseconds of the row.
fn elapsed(millis: u64, n: u64, before: i32, now: i32, since: i32) -> u64
    ensures { (result ≡ elapsedOf millis n before now since) × (result ≤ n) }
{
    if arith::is_equal(now, 0) {
        return 0;
    }
    if arith::is_equal(before, 0) {
        return 0;
    }
    let past = arith::count(since);
    if n <= past {
        return n;
    }
    if n - past <= millis {
        return n;
    }
    past + millis
}

// Whether w is 1 and its time is N.
fn due(n: u64, now: i32, e: u64) -> i32
    ensures { result ≡ dueOf n now (pos e) }
{
    if arith::is_equal(now, 1) {
        if e == n {
            return 1;
        }
    }
    0
}

// The timer t of w with the limit n, at work; or the state has no such numbers, or n is over the limit.
fn work(prev: &[i32], cur: &mut [i32], timing: Timing, t: u64, w: u64, n: u64) -> bool
    requires { length cur.old ≡ length prev.now }
    ensures { (ns : Setting) (c : Bool) (vs : List ℤ) → length ns.ranges ≡ length prev.now → TimingIn ns timing
        → worked result c vs cur.new ≡ perform ns prev.now (timing-of t w n) c vs cur.old }
{
    let size = prev.len();
    let id = t as usize;
    let watched = w as usize;
    if size <= id {
        return false;
    }
    if size <= watched {
        return false;
    }
    if size <= timing.names {
        return false;
    }
    let e = place(timing, id);
    if size <= e {
        return false;
    }
    if limits::TIME_LIMIT < n {
        return false;
    }
    let now = cur[watched];
    let time = elapsed(timing.millis, n, prev[watched], now, prev[e]);
    cur[e] = time as i32;
    cur[id] = due(n, now, time);
    true
}

// The 23 at a place, at work, and the place behind it; or it is broken.
pub fn run(code: &[u8], prev: &[i32], cur: &mut [i32], timing: Timing, at: usize) -> Option<usize>
    requires { (at < length code.now) × (get_or code.now at 0 ≡ 23) × (length cur.old ≡ length prev.now) }
    ensures { (held : ℕ) (picked : Bool) (low high vals : List ℤ) → held ≤ stack_limit → length low ≡ length prev.now
        → WorkedBy code.now (SettingIn low high timing) prev.now at (registers held picked false) vals cur.old cur.new result }
{
    match bytecode::fetch(code, at)? {
        bytecode::Fetched::Timer(t, w, n, next) => {
            if work(prev, cur, timing, t, w, n) {
                return Some(next);
            }
            None
        }
        bytecode::Fetched::Instruction(_, _, _) => None,
    }
}

// The 23 at a place, passed over: its operands are read, here and not by `fetch`, so that a run calls nothing.
pub fn pass(code: &[u8], at: usize) -> Option<(bool, usize, usize)>
    requires { (at < length code.now) × (get_or code.now at 0 ≡ 23) }
    ensures { PassedBy code.now at 1 result }
{
    let (_, second) = leb128::unsigned_at(code, at + 1)?;
    let (_, third) = leb128::unsigned_at(code, second)?;
    let (_, next) = leb128::unsigned_at(code, third)?;
    Some((true, next, 1))
}
