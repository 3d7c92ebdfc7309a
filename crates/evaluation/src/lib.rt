// One condition worked out at a place of a trace, and a watch walked over a trace that is lent as its states in turn.
#![tactic(auto)]

ghost use Rattle.std.specs.Prelude.{◌≡◌, Bool, false, not, List, [], ◌∷◌, ◌+◌, ◌*◌, ◌≤◌, ◌<◌, ◌^◌, length, take, drop};
ghost use Rattle.std.proofs.Math.Option.{none, some};
ghost use Rattle.limits.specs.Limits.{stack_limit};
ghost use Rattle.arith.specs.Values.{Outcome, ok};
ghost use Rattle.semantics.specs.Program.{Condition};
ghost use Rattle.semantics.specs.Formula.{eval_c};
ghost use Rattle.bytecode.specs.Instructions.{instruction_of, fetch_one};
ghost use Rattle.bytecode.specs.Results.{single_read, SingleWithin};
ghost use Rattle.machine.specs.Step.{bit};
ghost use Rattle.machine.specs.Held.{held_of};
ghost use Rattle.machine.specs.Inner.Memory.{step_outcome, Stack, Few};
ghost use Rattle.machine.specs.Inner.Groups.{performed};
ghost use Rattle.watching.specs.Watching.{is_yes, implied, places_of, first_failure};
ghost use Rattle.semantics.specs.Shape.{states_of, Setting};
ghost use Rattle.evaluation.specs.Conditions.{ConditionCode, Tells};
ghost use Rattle.evaluation.specs.Walks.{failed_at};
ghost use Rattle.evaluation.specs.Inner.Instructions.{CalculatesOr};

use machine::{Registers, Stepped};

// The instruction at a place, if it is no timer: its code byte, its operand (0 where it has none) and the place behind. Only `evaluate` calls it, so that it is compiled into the loop.
fn read(code: &[u8], at: usize) -> Option<(u8, u64, usize)>
    ensures result_value { single_read result ≡ fetch_one code.now at }
    ensures single_within { SingleWithin (length code.now) at result }
{
    if code.len() <= at {
        return None;
    }
    let byte = code[at];
    let behind = at + 1;
    if bytecode::has_operand(byte) {
        let (n, next) = leb128::unsigned_at(code, behind)?;
        return Some((byte, n, next));
    }
    Some((byte, 0, behind))
}

// One instruction of a condition; any other is refused. A match on the code byte: the image's bytes are what is run, and no table of functions.
fn work(prev: &[i32], cur: &[i32], vals: &mut [i32], m: Registers, code: u8, n: u64) -> Stepped
    requires stack { Stack m vals.old }
    requires n_bound { n < 2 ^ 32 }
    ensures cur_after { (ns : Setting) → length prev.now ≡ length ns.ranges → length cur.now ≡ length ns.ranges → CalculatesOr (instruction_of code n)
        → step_outcome result vals.new cur.now
        ≡ performed ns prev.now (instruction_of code n) m.picked (held_of vals.old m.held) cur.now }
    ensures few { Few result }
{
    match code {
        1 => machine::held::push(vals, m, leb128::unzigzag(n)),
        2 => machine::held::load(cur, vals, m, n),
        3 => machine::held::load(prev, vals, m, n),
        4..=8 => machine::held::calculate(vals, m, code),
        9 => machine::held::negate(vals, m),
        10..=15 => machine::held::relate(vals, m, code),
        16 => machine::held::invert(vals, m),
        17 => machine::held::relate(vals, m, 17),
        18 => machine::held::relate(vals, m, 18),
        _ => Stepped::Refused(limits::BROKEN_IMAGE),
    }
}

// The value held at the end of a condition's code.
fn answer(vals: &[i32], held: usize) -> Option<bool>
    requires { (stack_limit ≤ length vals.now) × (held ≤ stack_limit) }
    ensures { (b : Bool) → held_of vals.now held ≡ bit b ∷ [] → Tells result (ok b) }
{
    if held == 0 {
        return None;
    }
    let top = held - 1;
    Some(machine::values::is_yes(vals[top]))
}

// Whether the condition holds whose code is lent, with these previous and current values; or it meets 14.
pub fn evaluate(code: &[u8], prev: &[i32], cur: &[i32], vals: &mut [i32]) -> Option<bool>
    requires { stack_limit ≤ length vals.old }
    ensures { (c : Condition) → ConditionCode c (length cur.now) code.now → length prev.now ≡ length cur.now
        → Tells result (eval_c prev.now cur.now c) }
{
    let mut k = Registers {
        held: 0,
        picked: false,
        passing: false,
    };
    let mut at: usize = 0;
    // a `while`: the place moves on by an instruction's length, which is known when it is read
    while at < code.len() {
        let (op, n, next) = read(code, at)?;
        let Stepped::Next(t) = work(prev, cur, vals, k, op, n) else {
            return None;
        };
        k = t;
        at = next;
    }
    let held = k.held;
    answer(vals, held)
}

// The condition at a place of a trace: its current values stand from `at` on, the previous ones from `before` on.
fn evaluate_at(
    code: &[u8],
    trace: &[i32],
    names: usize,
    before: usize,
    at: usize,
    vals: &mut [i32],
) -> Option<bool>
    requires stack_limit_in_bounds { stack_limit ≤ length vals.old }
    requires names_in_bounds { (before + names ≤ length trace.now) × (at + names ≤ length trace.now) }
    ensures { (c : Condition) → ConditionCode c names code.now
        → Tells result (eval_c (take names (drop before trace.now)) (take names (drop at trace.now)) c) }
{
    let end = before + names;
    let next = at + names;
    evaluate(code, &trace[before..end], &trace[at..next], vals)
}

// A fault is no yes.
fn holds(t: Option<bool>) -> bool
    ensures { (o : Outcome Bool) → Tells t o → result ≡ is_yes o }
{
    t.unwrap_or(false)
}

fn is_fault(t: Option<bool>) -> bool
    ensures { (o : Outcome Bool) → Tells t o → not result ≡ is_yes (implied (ok false) o) }
{
    t.is_none()
}

// A pair's two conditions: a fault of either fails it.
fn is_kept(a: Option<bool>, b: Option<bool>) -> bool
    ensures { (o p : Outcome Bool) → Tells a o → Tells b p → result ≡ is_yes (implied o p) }
{
    match a {
        Some(true) => holds(b),
        Some(false) => !is_fault(b),
        None => false,
    }
}

// `G([c])`: the first place where the condition does not hold, if there is one. By place: `chunks_exact` asks for states that are not empty.
pub fn walk_alone(
    code: &[u8],
    trace: &[i32],
    names: usize,
    places: usize,
    vals: &mut [i32],
) -> Option<usize>
    requires { (stack_limit ≤ length vals.old) × (places * names ≡ length trace.now) }
    ensures { (c : Condition) → ConditionCode c names code.now
        → failed_at result ≡ first_failure (record { first = c; later = none }) (places_of (states_of places names trace.now)) }
{
    let mut before: usize = 0;
    let mut at: usize = 0;
    for n in 0..places {
        let t = evaluate_at(code, trace, names, before, at, vals);
        if !holds(t) {
            return Some(n);
        }
        before = at;
        at += names;
    }
    None
}

// `G([c] -> X([d]))`: the later place of the first pair that does not hold. The first condition's answer is carried, so that one loop for
// both walks would test at each place which it is.
pub fn walk_paired(
    first: &[u8],
    later: &[u8],
    trace: &[i32],
    names: usize,
    places: usize,
    vals: &mut [i32],
) -> Option<usize>
    requires { (stack_limit ≤ length vals.old) × (places * names ≡ length trace.now) }
    ensures { (c d : Condition) → ConditionCode c names first.now → ConditionCode d names later.now
        → failed_at result ≡ first_failure (record { first = c; later = some d }) (places_of (states_of places names trace.now)) }
{
    if places == 0 {
        return None;
    }
    let mut a = evaluate_at(first, trace, names, 0, 0, vals);
    let mut before: usize = 0;
    let mut at: usize = names;
    for n in 1..places {
        let b = evaluate_at(later, trace, names, before, at, vals);
        if !is_kept(a, b) {
            return Some(n);
        }
        a = evaluate_at(first, trace, names, before, at, vals);
        before = at;
        at += names;
    }
    None
}
