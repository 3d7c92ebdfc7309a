// Declarations of inputs and variables: names into the table, bounds and starts as the header's numbers.
#![tactic(auto)]

ghost use Rattle.std.specs.Prelude.{cond, ◌≡◌, List, ◌+◌, ◌≤◌, ◌<◌, ◌^◌, pos, length};
ghost use Rattle.std.proofs.Math.Option.{none, some};
ghost use Rattle.std.proofs.lemmas.List.Edits.{sets};
ghost use Rattle.lexer.specs.Results.{kind_of};
ghost use Rattle.lexer.specs.Token.{last_kind};
ghost use Rattle.semantics.specs.Program.{Name};
ghost use Rattle.grammar.specs.Declarations.{in_range, signed_digits, bound_at, start_at};
ghost use Rattle.lexer.specs.declared.Place.{Place};
ghost use Rattle.std.specs.Prelude.{Ok};
ghost use Rattle.limits.specs.Limits.{name_limit, out_of_limit};
ghost use Rattle.grammar.specs.Parsed.{accepted, refused as refused_at};
ghost use Rattle.phrases.specs.Inner.Steps.{parsed_of, nothing, value_told, Writes};
ghost use Rattle.declarations.specs.Inner.Ranges.{signed_by, declared_range, range_bytes};
ghost use Rattle.declarations.specs.Inner.Bounds.{bounded_number, valued_at};
ghost use Rattle.declarations.specs.Inner.Tables.{TableRoom, TableHolds, Names, DeclaresOne, DeclaresAll, FewDeclared};

use lexer::{Place, Step};
use limits::Refusal;

pub mod timers;

const LOWEST: i32 = -2147483648;

const HIGHEST: i32 = 2147483647;

// The place after a number, with its value.
fn valued(at: usize, value: i32) -> Step
    ensures { result ≡ valued_at at value }
{
    Ok(Place {
        at,
        kind: lexer::UNKNOWN,
        start: at,
        end: at,
        to: 0,
        number: 0,
        value,
    })
}

fn within(z: i64, low: i32, high: i32) -> Option<i32>
    ensures { bounded_number result ≡ cond (in_range low high z) (some z) none }
{
    if low as i64 <= z {
        if z <= high as i64 {
            return Some(z as i32);
        }
    }
    None
}

// The number of that value and sign.
fn signed(value: u64, negative: bool, low: i32, high: i32) -> Option<i32>
    requires { value ≤ 2 ^ 32 }
    ensures { bounded_number result ≡ cond (in_range low high (signed_by negative (pos value))) (some (signed_by negative (pos value))) none }
{
    let z = value as i64;
    if negative {
        return within(0 - z, low, high);
    }
    within(z, low, high)
}

// The token of a kind from `start` to `end`, as the digits of a number between low and high.
fn digits(
    text: &[u8],
    kind: u32,
    start: usize,
    end: usize,
    negative: bool,
    low: i32,
    high: i32,
) -> Step
    requires { kind ≤ last_kind }
    ensures { parsed_of value_told result ≡ signed_digits (in_range low high) (signed_by negative) text.now (kind_of kind) start end }
{
    if kind != lexer::DIGITS {
        return Err(Refusal::NotAllowed(start));
    }
    let value = lexer::value(lexer::name(text, start, end));
    let Some(z) = signed(value, negative, low, high) else {
        return Err(Refusal::OutOfLimit(start));
    };
    valued(end, z)
}

// A signed number between low and high.
fn bound_at(text: &[u8], at: usize, low: i32, high: i32) -> Step
    ensures { parsed_of value_told result ≡ bound_at (in_range low high) text.now at }
{
    let read = lexer::token_at(text, at);
    let Ok(token) = read else {
        return read;
    };
    if token.kind == lexer::MINUS {
        let next = lexer::token_at(text, token.end);
        let Ok(token2) = next else {
            return next;
        };
        return digits(text, token2.kind, token2.start, token2.end, true, low, high);
    }
    digits(text, token.kind, token.start, token.end, false, low, high)
}

// An absent start is 0; the `;` is the token from `place` to `next`.
fn absent(place: usize, next: usize, low: i32, high: i32) -> Step
    ensures { parsed_of value_told result ≡ cond (in_range low high (pos 0)) (accepted (pos 0) next) (refused_at out_of_limit place) }
{
    let Some(z) = within(0, low, high) else {
        return Err(Refusal::OutOfLimit(place));
    };
    valued(next, z)
}

// The start and the `;`.
fn start_at(text: &[u8], at: usize, low: i32, high: i32) -> Step
    ensures { parsed_of value_told result ≡ start_at text.now low high at }
{
    let read = lexer::token_at(text, at);
    let Ok(token) = read else {
        return read;
    };
    if token.kind == lexer::INIT {
        let z = bound_at(text, token.end, low, high)?;
        let after = phrases::expect(text, z.at, lexer::SEMICOLON)?;
        return valued(after.at, z.value);
    }
    if token.kind == lexer::SEMICOLON {
        return absent(token.start, token.end, low, high);
    }
    Err(Refusal::NotAllowed(token.start))
}

// Low, high and start as the header has them.
fn put_range(out: &mut [u8], to: usize, low: i32, high: i32, start: i32) -> usize
    requires { to < 2 ^ 30 }
    ensures { (result ≡ to + length (range_bytes (record { low = low; high = high; start = start }))) × (out.new ≡ sets out.old to (range_bytes (record { low = low; high = high; start = start }))) }
{
    let a = leb128::put_signed(out, to, low);
    let b = leb128::put_signed(out, a, high);
    leb128::put_signed(out, b, start)
}

// Low, `..`, high, the start and the `;`.
fn range(text: &[u8], at: usize, out: &mut [u8], to: usize) -> Step
    requires { to < 2 ^ 30 }
    ensures { Writes range_bytes nothing (λ _. tt) (declared_range text.now at) to out.old out.new result }
{
    let low = bound_at(text, at, LOWEST, HIGHEST)?;
    let b = phrases::expect(text, low.at, lexer::DOTS)?;
    let high = bound_at(text, b.at, low.value, HIGHEST)?;
    let z = start_at(text, high.at, low.value, high.value)?;
    lexer::reached(z.at, put_range(out, to, low.value, high.value, z.value), 0)
}

// A new name into the table.
fn new_name(text: &[u8], at: usize, starts: &mut [usize], ends: &mut [usize], count: usize) -> Step
    requires { TableRoom starts.old ends.old count }
    ensures names { (names : List Name) → TableHolds text.now starts.old ends.old count names → Names text.now names at count ends.old starts.new ends.new result }
    ensures count_lt_name_limit { (x : Place) → result ≡ Ok x → count < name_limit }
{
    let read = lexer::token_at(text, at);
    let Ok(token) = read else {
        return read;
    };
    if token.kind != lexer::NAME {
        return Err(Refusal::NotAllowed(token.start));
    }
    let known = lexer::find(
        text,
        starts,
        ends,
        count,
        lexer::name(text, token.start, token.end),
    );
    if known.is_some() {
        return Err(Refusal::WrongName(token.start));
    }
    if lexer::is_over_long(token.start, token.end) {
        return Err(Refusal::TooMany(token.start));
    }
    if count < limits::NAME_LIMIT {
        lexer::add(starts, ends, count, token.start, token.end);
        return lexer::reached(token.end, 0, 0);
    }
    Err(Refusal::TooMany(token.start))
}

// A declaration after its word.
fn declaration(
    text: &[u8],
    at: usize,
    starts: &mut [usize],
    ends: &mut [usize],
    count: usize,
    out: &mut [u8],
    to: usize,
) -> Step
    requires table_room { TableRoom starts.old ends.old count }
    requires to_bound { to < 2 ^ 30 }
    ensures declares_one { (names : List Name) → TableHolds text.now starts.old ends.old count names → DeclaresOne text.now names at to count out.old out.new ends.old starts.new ends.new result }
    ensures count_lt_name_limit { (x : Place) → result ≡ Ok x → (count < name_limit) × (x.to ≤ to + 15) }
{
    let next = new_name(text, at, starts, ends, count)?;
    range(text, next.at, out, to)
}

// Declarations that begin with the word, after `count` names.
pub fn declarations(
    text: &[u8],
    at: usize,
    word: u32,
    starts: &mut [usize],
    ends: &mut [usize],
    count: usize,
    out: &mut [u8],
    to: usize,
) -> Step
    requires word_le_last_kind { (word ≤ last_kind) × (to < 2 ^ 20) }
    requires table_room { TableRoom starts.old ends.old count }
    ensures declares_all { (names : List Name) → TableHolds text.now starts.old ends.old count names → DeclaresAll (kind_of word) text.now names at to out.old out.new ends.old starts.new ends.new result }
    ensures few_declared { FewDeclared to result }
{
    let mut a = at;
    let mut known = count;
    let mut t = to;
    // a `loop`: the token behind a declaration says whether another follows
    loop {
        let read = lexer::token_at(text, a);
        let Ok(token) = read else {
            return read;
        };
        if token.kind != word {
            return lexer::reached(a, t, known);
        }
        let b = declaration(text, token.end, starts, ends, known, out, t)?;
        a = b.at;
        t = b.to;
        known += 1;
    }
}
