// Timers, after the variables: their names into the table, their ranges into the header, and of each w and N into two tables by id.
ghost use Rattle.std.specs.Prelude.{◌≡◌, true, List, ℕ, ◌+◌, ◌≤◌, ◌<◌, ◌^◌, length, set};
ghost use Rattle.limits.specs.Limits.{name_limit, time_limit};
ghost use Rattle.semantics.specs.Program.{Name, Range, is_binary};
ghost use Rattle.grammar.specs.Parsed.{accepted};
ghost use Rattle.grammar.specs.Timers.{WithTimers, is_watchable, watched_at, limit_at};
ghost use Rattle.lexer.specs.declared.Place.{Place};
ghost use Rattle.std.specs.Prelude.{Ok};
ghost use Rattle.phrases.specs.Inner.Steps.{parsed_of, number_told};
ghost use Rattle.declarations.specs.Inner.Ranges.{declared_range};
ghost use Rattle.declarations.specs.Inner.Tables.{TableRoom, FewDeclared};
ghost use Rattle.declarations.specs.Inner.Timers.{Watchables, timer_told, timer_done, timer_rest, TimersHeld, TimerRoom, TimerDeclared, DeclaresTimers};

use lexer::{Place, Step};
use limits::Refusal;

// Whether the range that stands at a place is 0..1.
fn is_binary(text: &[u8], at: usize) -> bool
    ensures { (x : Range) (n : ℕ) → declared_range text.now at ≡ accepted x n → result ≡ is_binary x }
{
    let Ok(low) = crate::bound_at(text, at, crate::LOWEST, crate::HIGHEST) else {
        return false;
    };
    let Ok(b) = phrases::expect(text, low.at, lexer::DOTS) else {
        return false;
    };
    let Ok(high) = crate::bound_at(text, b.at, low.value, crate::HIGHEST) else {
        return false;
    };
    arith::is_equal(low.value, 0) && arith::is_equal(high.value, 1)
}

// A `var` of range 0..1: neither an input nor a timer.
fn is_watchable(text: &[u8], ends: &[usize], inputs: usize, first: usize, id: usize) -> bool
    requires { first ≤ length ends.now }
    ensures by_index { (starts : List ℕ) (count : ℕ) (names : List Name) → Watchables text.now starts ends.now count first names → result ≡ is_watchable inputs first names id }
    ensures id_lt_first { result ≡ true → id < first }
{
    if id < inputs {
        return false;
    }
    if first <= id {
        return false;
    }
    is_binary(text, ends[id])
}

// w, one of the names declared so far. The number told is its id.
fn watched_at(
    text: &[u8],
    at: usize,
    starts: &[usize],
    ends: &[usize],
    count: usize,
    inputs: usize,
    first: usize,
) -> Step
    requires table_room { TableRoom starts.now ends.now count }
    requires first_le_name_limit { first ≤ name_limit }
    ensures result_value { (names : List Name) → Watchables text.now starts.now ends.now count first names
        → parsed_of number_told result ≡ watched_at text.now inputs first names at }
    ensures number_lt_name_limit { (x : Place) → result ≡ Ok x → x.number < name_limit }
{
    let read = lexer::token_at(text, at);
    let Ok(token) = read else {
        return read;
    };
    if token.kind != lexer::NAME {
        return Err(Refusal::NotAllowed(token.start));
    }
    if lexer::is_over_long(token.start, token.end) {
        return Err(Refusal::TooMany(token.start));
    }
    let found = lexer::find(
        text,
        starts,
        ends,
        count,
        lexer::name(text, token.start, token.end),
    );
    let Some(id) = found else {
        return Err(Refusal::WrongName(token.start));
    };
    if is_watchable(text, ends, inputs, first, id) {
        return lexer::reached(token.end, 0, id);
    }
    Err(Refusal::WrongTimer(token.start))
}

// N. The number told is its value.
fn limit_at(text: &[u8], at: usize) -> Step
    ensures result_value { parsed_of number_told result ≡ limit_at text.now at }
    ensures number_le_time_limit { (x : Place) → result ≡ Ok x → x.number ≤ time_limit }
{
    let read = lexer::token_at(text, at);
    let Ok(token) = read else {
        return read;
    };
    if token.kind != lexer::DIGITS {
        return Err(Refusal::NotAllowed(token.start));
    }
    let value = lexer::value(lexer::name(text, token.start, token.end));
    if value < 1 {
        return Err(Refusal::OutOfLimit(token.start));
    }
    if limits::TIME_LIMIT < value {
        return Err(Refusal::OutOfLimit(token.start));
    }
    lexer::reached(token.end, 0, value as usize)
}

// Of a timer w and N, at its id. Ids are below 64, and N is at most 2,147,483,647.
fn store(watched: &mut [u8], limits: &mut [u32], id: usize, w: usize, n: usize)
    requires { (id < length watched.old) × (id < length limits.old) × (w < 2 ^ 8) × (n < 2 ^ 32) }
    ensures { (watched.new ≡ set watched.old id w) × (limits.new ≡ set limits.old id n) }
{
    watched[id] = w as u8;
    limits[id] = n as u32;
}

// The place after a timer, with w's id and N.
fn told(at: usize, w: usize, n: usize) -> Step
    ensures { result ≡ timer_done at w n }
{
    Ok(Place {
        at,
        kind: lexer::UNKNOWN,
        start: n,
        end: at,
        to: 0,
        number: w,
        value: 0,
    })
}

// `of w limit N;` after a timer's name. Told are w's id and N.
fn rest(
    text: &[u8],
    at: usize,
    starts: &[usize],
    ends: &[usize],
    count: usize,
    inputs: usize,
    first: usize,
) -> Step
    requires table_room { TableRoom starts.now ends.now count }
    requires first_le_name_limit { first ≤ name_limit }
    ensures result_value { (names : List Name) → Watchables text.now starts.now ends.now count first names
        → parsed_of timer_told result ≡ timer_rest text.now inputs first names at }
    ensures number_lt_name_limit { (x : Place) → result ≡ Ok x → (x.number < name_limit) × (x.start ≤ time_limit) }
{
    let before = phrases::expect(text, at, lexer::OF)?;
    let variable = watched_at(text, before.at, starts, ends, count, inputs, first)?;
    let ahead = phrases::expect(text, variable.at, lexer::LIMIT)?;
    let most = limit_at(text, ahead.at)?;
    let after = phrases::expect(text, most.at, lexer::SEMICOLON)?;
    told(after.at, variable.number, most.number)
}

// A timer after its word.
fn timer(
    text: &[u8],
    at: usize,
    starts: &mut [usize],
    ends: &mut [usize],
    count: usize,
    inputs: usize,
    first: usize,
    watched: &mut [u8],
    limits: &mut [u32],
    out: &mut [u8],
    to: usize,
) -> Step
    requires table_room { TableRoom starts.old ends.old count }
    requires timer_room { TimerRoom watched.old limits.old }
    requires first_le_count { (first ≤ count) × (to < 2 ^ 30) }
    ensures timer_declared { (x : WithTimers) → TimersHeld text.now starts.old ends.old watched.old limits.old first count x
        → TimerDeclared text.now inputs first x at to count out.old out.new starts.new ends.new watched.new limits.new result }
    ensures count_lt_name_limit { (x : Place) → result ≡ Ok x → (count < name_limit) × (x.to ≤ to + 15) }
{
    let next = crate::new_name(text, at, starts, ends, count)?;
    let x = rest(text, next.at, starts, ends, count + 1, inputs, first)?;
    store(watched, limits, count, x.number, x.start);
    lexer::reached(x.at, crate::put_range(out, to, 0, 1, 0), 0)
}

// Timers, after `count` names: inputs and variables.
pub fn timers(
    text: &[u8],
    at: usize,
    starts: &mut [usize],
    ends: &mut [usize],
    count: usize,
    inputs: usize,
    watched: &mut [u8],
    limits: &mut [u32],
    out: &mut [u8],
    to: usize,
) -> Step
    requires table_room { TableRoom starts.old ends.old count }
    requires timer_room { TimerRoom watched.old limits.old }
    requires to_bound { to < 2 ^ 20 }
    ensures declares_timers { (x : WithTimers) → TimersHeld text.now starts.old ends.old watched.old limits.old count count x
        → DeclaresTimers text.now inputs count x at to out.old out.new starts.new ends.new watched.new limits.new result }
    ensures few_declared { FewDeclared to result }
{
    let mut a = at;
    let mut known = count;
    let mut t = to;
    // a `loop`: the token behind a timer says whether another follows
    loop {
        let read = lexer::token_at(text, a);
        let Ok(token) = read else {
            return read;
        };
        if token.kind != lexer::TIMER {
            return lexer::reached(a, t, known);
        }
        let b = timer(
            text, token.end, starts, ends, known, inputs, count, watched, limits, out, t,
        )?;
        a = b.at;
        t = b.to;
        known += 1;
    }
}
