// The walk over a whole code that may have timers: one instruction at a time, with the ranges of the header at hand. Only where the fast walk met a timer.
ghost use Rattle.std.specs.Prelude.{List, [], ◌≡◌, false, ◌+◌, ◌^◌, ◌≤◌, ◌<◌, pos, length, get_or};
ghost use Rattle.std.proofs.Math.Option.{Option, none};
ghost use Rattle.limits.specs.Limits.{image_limit, name_limit};
ghost use Rattle.limits.specs.Refusals.{stands_for, judged_by};
ghost use Rattle.arith.specs.Values.{eq_z};
ghost use Rattle.semantics.specs.Program.{Range, known_first};
ghost use Rattle.bytecode.specs.Instructions.{Instruction, timer as timerOf, instruction_of};
ghost use Rattle.bytecode.specs.Check.{known as knownAs, suits as suitsOf, check_code, check_of};
ghost use Rattle.checker.specs.Results.{CheckedWithin, SurveyedBy};
ghost use Rattle.checker.specs.Inner.Walk.{known_of, advanced_known, advance_by, Small, SmallAfter};
ghost use Rattle.checker.specs.Inner.Timed.{RangesStand, LastBy, PlainBy, TimedBy, TurnsBy};

use crate::advance::Walk;
use crate::{Surveyed, advance};
use limits::Refusal;

// The instruction before, as far as a timer asks: 1 plus the id of the variable whose rule or timer it is, or 0; and the least id of a timer that may follow it.
#[derive(Clone, Copy)]
pub struct Last {
    pub of: u64,
    pub least: u64,
}

// As `advance::advance`, which has one caller so that it is compiled into the fast walk.
fn advanced(code: u8, n: u64, w: Walk) -> Option<Walk>
    requires { (Small w) × (n < 2 ^ 32) }
    ensures result_value { advanced_known result ≡ advance_by (instruction_of code n) (known_of w) }
    ensures small_after { SmallAfter result }
{
    match code {
        1 => advance::push(w),
        2 => advance::current(w, n),
        3 => advance::previous(w, n),
        4..=8 => advance::join(w, advance::NUMBER, advance::NUMBER),
        9 => advance::keep(w, advance::NUMBER),
        10..=15 => advance::test(w, advance::NUMBER),
        16 => advance::invert(w),
        17 => advance::test(w, advance::TRUTH),
        18 => advance::test(w, advance::TRUTH),
        19 => advance::gate(w),
        20 => advance::pick(w, advance::CHANGING, n),
        21 => advance::assign(w, n),
        22 => advance::settle(w, n),
        24 => advance::pick(w, advance::RISING, n),
        25 => advance::pick(w, advance::FALLING, n),
        _ => None,
    }
}

// A let and a settle end the rule of their variable, known by their code bytes.
fn after(code: u8, n: u64) -> Last
    requires { n < 2 ^ 32 }
    ensures { LastBy (instruction_of code n) result }
{
    match code {
        21 => Last {
            of: n + 1,
            least: 0,
        },
        22 => Last {
            of: n + 1,
            least: 0,
        },
        _ => Last { of: 0, least: 0 },
    }
}

// Whether this is the number of an id; 0 is that of an id which has none.
fn is_number(list: &[i32], id: u64, z: i32) -> bool
    ensures { result ≡ eq_z (get_or list.now id (pos 0)) z }
{
    if (list.len() as u64) <= id {
        return arith::is_equal(0, z);
    }
    let i = id as usize;
    arith::is_equal(list[i], z)
}

// t is of range 0..1 and starts at 0, w is of range 0..1, N is from 1 to 2,147,483,647, and the rule of w or a timer of it with a smaller id stands directly before.
fn suits(low: &[i32], high: &[i32], start: &[i32], last: Last, t: u64, w: u64, n: u64) -> bool
    requires { w < 2 ^ 32 }
    ensures { (ns : List Range) (before : Option Instruction) → RangesStand ns low.now high.now start.now → LastBy before last → result ≡ suitsOf ns before (timerOf t w n) }
{
    if !is_number(low, t, 0) {
        return false;
    }
    if !is_number(high, t, 1) {
        return false;
    }
    if !is_number(start, t, 0) {
        return false;
    }
    if !is_number(low, w, 0) {
        return false;
    }
    if !is_number(high, w, 1) {
        return false;
    }
    if n == 0 {
        return false;
    }
    if 2147483647 < n {
        return false;
    }
    if last.of != w + 1 {
        return false;
    }
    last.least <= t
}

// The walk behind an instruction of one operand at most, what is known of that instruction, and its place; or it breaks soundness.
fn plain(code: u8, n: u64, next: usize, w: Walk) -> Option<(Walk, Last, usize)>
    requires { (Small w) × (n < 2 ^ 32) }
    ensures { PlainBy code n next w result }
{
    let k = advanced(code, n, w)?;
    Some((k, after(code, n), next))
}

// The same of a timer.
fn timer(
    t: u64,
    v: u64,
    n: u64,
    next: usize,
    w: Walk,
    last: Last,
    low: &[i32],
    high: &[i32],
    start: &[i32],
) -> Option<(Walk, Last, usize)>
    requires { (Small w) × (t < 2 ^ 32) × (v < 2 ^ 32) }
    ensures { TimedBy t v n next w last low.now high.now start.now result }
{
    if !suits(low, high, start, last, t, v, n) {
        return None;
    }
    let k = advance::timer(w, t)?;
    let last = Last {
        of: v + 1,
        least: t + 1,
    };
    Some((k, last, next))
}

// One instruction.
fn turn(
    code: &[u8],
    at: usize,
    w: Walk,
    last: Last,
    low: &[i32],
    high: &[i32],
    start: &[i32],
) -> Option<(Walk, Last, usize)>
    requires { (Small w) × (at < length code.now) }
    ensures { TurnsBy code.now at w last low.now high.now start.now result }
{
    match bytecode::fetch(code, at)? {
        bytecode::Fetched::Instruction(byte, n, next) => plain(byte, n, next, w),
        bytecode::Fetched::Timer(t, v, n, next) => timer(t, v, n, next, w, last, low, high, start),
    }
}

// The walk over the whole code, which begins at `base` of the image.
pub fn walk(
    code: &[u8],
    base: usize,
    low: &[i32],
    high: &[i32],
    start: &[i32],
    inputs: usize,
) -> Result<(), Refusal>
    requires { (inputs ≤ length low.now) × (length low.now ≤ name_limit) × (base + length code.now ≤ image_limit) }
    ensures result_value { (ns : List Range) → RangesStand ns low.now high.now start.now
        → stands_for result ≡ check_code ns base code.now (length code.now) 0 none (knownAs [] false none (known_first inputs (length low.now))) }
    ensures checked_within { CheckedWithin result }
{
    let mut at = 0;
    let mut w = crate::initial(inputs, low.len());
    let mut last = Last { of: 0, least: 0 };
    // a `while`: the place moves on by an instruction's length, which is known when it is read
    while at < code.len() {
        let Some((k, l, next)) = turn(code, at, w, last, low, high, start) else {
            return Err(Refusal::BrokenImage(base + at));
        };
        w = k;
        last = l;
        at = next;
    }
    if crate::complete(w) {
        return Ok(());
    }
    Err(Refusal::BrokenImage(base + code.len()))
}

// With the ranges that the walk over timers asks for: the image is read again from its start.
fn survey_ranges(
    image: &[u8],
    low: &mut [i32],
    high: &mut [i32],
    start: &mut [i32],
) -> Result<Surveyed, Refusal>
    requires image_len_bound { length image.now ≤ image_limit }
    requires low_len { (length low.old ≡ name_limit) × (length high.old ≡ name_limit) × (length start.old ≡ name_limit) }
    ensures result_value { judged_by result ≡ check_of image.now }
    ensures surveyed_by { SurveyedBy image.now result }
{
    match bytecode::header(image, low, high, start) {
        Err(place) => Err(Refusal::BrokenImage(place)),
        Ok((inputs, names, place)) => {
            let code = &image[place..];
            walk(
                code,
                place,
                &low[..names],
                &high[..names],
                &start[..names],
                inputs,
            )?;
            Ok(Surveyed::Timed)
        }
    }
}

// Only an image with a timer pays for these.
pub fn survey_timed(image: &[u8]) -> Result<Surveyed, Refusal>
    requires { length image.now ≤ image_limit }
    ensures result_value { judged_by result ≡ check_of image.now }
    ensures surveyed_by { SurveyedBy image.now result }
{
    let mut low = [0i32; limits::NAME_LIMIT];
    let mut high = [0i32; limits::NAME_LIMIT];
    let mut start = [0i32; limits::NAME_LIMIT];
    survey_ranges(image, &mut low, &mut high, &mut start)
}
