// Expressions: a recursive descent that writes the code of what it reads. Each function takes the place where its part starts, and
// answers with the token behind the part, so that its caller need not read that token again.
#![tactic(auto)]

ghost use Rattle.std.specs.Prelude.{◌≡◌, ◌∷◌, ℕ, ◌+◌, ◌^◌, ◌<◌, length};
ghost use Rattle.std.proofs.lemmas.List.Edits.{sets};
ghost use Rattle.leb128.specs.Numbers.{number as numberBytes};
ghost use Rattle.lexer.specs.Lexer.{token_at};
ghost use Rattle.bytecode.specs.Instructions.{operation_code};
ghost use Rattle.grammar.specs.Parsed.{accepted};
ghost use Rattle.grammar.specs.Expressions.{constant_at, current_at, previous_value_at, product_of, sum_of, bracket, whole_expression};
ghost use Rattle.grammar.specs.Inner.Bytes.{bytes_e};
ghost use Rattle.expressions.specs.Inner.Scopes.{scope_of, Declared};
ghost use Rattle.expressions.specs.Inner.Steps.{step_at, Parses, Room};
ghost use Rattle.expressions.specs.Inner.Readers.{text_only, primary_in, factor_in, term_in, expression_in, Codes, StandsAt, closed_step, operator_bytes, minus_code, behind_minus};

use bytecode::opcode;
use lexer::{Place, Step};
use limits::Refusal;
use scope::Names;

pub mod scope;

// The place `at` with the token there, and the bytes written up to `to`.
pub fn ahead(text: &[u8], at: usize, to: usize) -> Step
    ensures { result ≡ step_at (token_at text.now at) at to }
{
    let read = lexer::token_at(text, at);
    let Ok(mut token) = read else {
        return read;
    };
    token.at = at;
    token.to = to;
    Ok(token)
}

// A part with a token of the kind given behind it, and the token behind that one.
pub fn closed(text: &[u8], part: Step, kind: u32) -> Step
    ensures { result ≡ closed_step text.now kind part }
{
    let behind = part?;
    if behind.kind == kind {
        return ahead(text, behind.end, behind.to);
    }
    Err(Refusal::NotAllowed(behind.start))
}

// The code of an operator of a sum, and of a product; 0 for any other token.
fn sum_code(kind: u32) -> u8
    ensures { Codes operation_code sum_of kind result }
{
    if kind == lexer::PLUS {
        return opcode::ADD;
    }
    if kind == lexer::MINUS {
        return opcode::SUBTRACT;
    }
    0
}

fn product_code(kind: u32) -> u8
    ensures { Codes operation_code product_of kind result }
{
    if kind == lexer::STAR {
        return opcode::MULTIPLY;
    }
    if kind == lexer::SLASH {
        return opcode::DIVIDE;
    }
    if kind == lexer::MOD {
        return opcode::MODULO;
    }
    0
}

// The code of a `-` before a primary; 0 for any other token.
fn minus_code(kind: u32) -> u8
    ensures { result ≡ minus_code kind }
{
    if kind == lexer::MINUS {
        return opcode::NEGATE;
    }
    0
}

// The token behind that `-`; where there is none, the one at hand.
fn behind_minus(text: &[u8], here: Place, to: usize) -> Step
    ensures { result ≡ behind_minus text.now to here }
{
    if here.kind == lexer::MINUS {
        return ahead(text, here.end, to);
    }
    Ok(here)
}

// The byte of an operator, and nothing for code 0; the place behind it.
pub fn put_operator(out: &mut [u8], to: usize, code: u8) -> usize
    requires { to < 2 ^ 32 }
    ensures { (result ≡ to + length (operator_bytes code)) × (out.new ≡ sets out.old to (operator_bytes code)) }
{
    if code == 0 {
        return to;
    }
    leb128::put_byte(out, to, code)
}

// An instruction with its operand, and the token at `end` behind them.
fn instruction(text: &[u8], end: usize, code: u8, operand: u64, out: &mut [u8], to: usize) -> Step
    requires { (to + 1 < 2 ^ 31) × (operand < 2 ^ 32) }
    ensures { Parses text.now (λ (o : ℕ). code ∷ numberBytes o) (accepted operand end) to out.old out.new result }
{
    let u = bytecode::put_instruction(out, to, code, operand);
    ahead(text, end, u)
}

// The number that the digits from `start` to `end` spell.
fn number(text: &[u8], start: usize, end: usize, out: &mut [u8], to: usize) -> Step
    requires { to + 1 < 2 ^ 31 }
    ensures { Parses text.now bytes_e (constant_at (text_only text.now) start end) to out.old out.new result }
{
    let v = lexer::value(lexer::name(text, start, end));
    if limits::NUMBER_LIMIT < v {
        return Err(Refusal::OutOfLimit(start));
    }
    instruction(
        text,
        end,
        opcode::CONSTANT,
        leb128::zigzag(v as i32),
        out,
        to,
    )
}

// The current value of the name from `start` to `end`.
fn current(
    text: &[u8],
    starts: &[usize],
    ends: &[usize],
    names: Names,
    start: usize,
    end: usize,
    out: &mut [u8],
    to: usize,
) -> Step
    requires declared { Declared starts.now ends.now names }
    requires to_bound { to + 1 < 2 ^ 31 }
    ensures { Parses text.now bytes_e (current_at (scope_of text.now starts.now ends.now names) start end) to out.old out.new result }
{
    if lexer::is_over_long(start, end) {
        return Err(Refusal::TooMany(start));
    }
    let found = lexer::find(
        text,
        starts,
        ends,
        names.count,
        lexer::name(text, start, end),
    );
    let Some(id) = found else {
        return Err(Refusal::WrongName(start));
    };
    if scope::is_known(names, id) {
        return instruction(text, end, opcode::CURRENT, id as u64, out, to);
    }
    Err(Refusal::TooEarly(start))
}

// The previous value of the name that stands behind the `_` at `start`.
fn previous(
    text: &[u8],
    starts: &[usize],
    ends: &[usize],
    names: Names,
    start: usize,
    end: usize,
    out: &mut [u8],
    to: usize,
) -> Step
    requires declared { Declared starts.now ends.now names }
    requires start_bound { (start < 2 ^ 31) × (to + 1 < 2 ^ 31) }
    ensures { Parses text.now bytes_e (previous_value_at (scope_of text.now starts.now ends.now names) start end) to out.old out.new result }
{
    let from = start + 1;
    if lexer::is_over_long(from, end) {
        return Err(Refusal::TooMany(start));
    }
    let found = lexer::find(
        text,
        starts,
        ends,
        names.count,
        lexer::name(text, from, end),
    );
    let Some(id) = found else {
        return Err(Refusal::WrongName(start));
    };
    instruction(text, end, opcode::PREVIOUS, id as u64, out, to)
}

// Terms with `+` and `-` between them. One call in the loop reads each of them, so that it is compiled in place; `term` and `factor`
// likewise.
#[cycle(bracket_expression_factor_primary_term)]
pub fn expression(
    text: &[u8],
    starts: &[usize],
    ends: &[usize],
    names: Names,
    at: usize,
    left: usize,
    out: &mut [u8],
    to: usize,
) -> Step
    requires declared { Declared starts.now ends.now names }
    requires room { Room text.now at to }
    ensures { Parses text.now bytes_e (expression_in left (scope_of text.now starts.now ends.now names) at) to out.old out.new result }
{
    // with code 0 nothing is read yet, else the parts so far and the operator of that code
    let mut a = at;
    let mut t = to;
    let mut code: u8 = 0;
    // a `loop`: the token behind an operand says whether another follows
    loop {
        let mut behind = term(text, starts, ends, names, a, left, out, t)?;
        behind.to = put_operator(out, behind.to, code);
        code = sum_code(behind.kind);
        if code == 0 {
            return Ok(behind);
        }
        a = behind.end;
        t = behind.to;
    }
}

// Factors with `*`, `/` and `mod` between them.
#[cycle(bracket_expression_factor_primary_term)]
fn term(
    text: &[u8],
    starts: &[usize],
    ends: &[usize],
    names: Names,
    at: usize,
    left: usize,
    out: &mut [u8],
    to: usize,
) -> Step
    requires declared { Declared starts.now ends.now names }
    requires room { Room text.now at to }
    ensures { Parses text.now bytes_e (term_in left (scope_of text.now starts.now ends.now names) at) to out.old out.new result }
{
    // with code 0 nothing is read yet, else the parts so far and the operator of that code
    let mut a = at;
    let mut t = to;
    let mut code: u8 = 0;
    // a `loop`: the token behind an operand says whether another follows
    loop {
        let mut behind = factor(text, starts, ends, names, a, left, out, t)?;
        behind.to = put_operator(out, behind.to, code);
        code = product_code(behind.kind);
        if code == 0 {
            return Ok(behind);
        }
        a = behind.end;
        t = behind.to;
    }
}

// At most one `-`, then a primary.
#[cycle(bracket_expression_factor_primary_term)]
fn factor(
    text: &[u8],
    starts: &[usize],
    ends: &[usize],
    names: Names,
    at: usize,
    left: usize,
    out: &mut [u8],
    to: usize,
) -> Step
    requires declared { Declared starts.now ends.now names }
    requires room { Room text.now at to }
    ensures { Parses text.now bytes_e (factor_in left (scope_of text.now starts.now ends.now names) at) to out.old out.new result }
{
    let read = ahead(text, at, to);
    let Ok(first) = read else {
        return read;
    };
    let second = behind_minus(text, first, to);
    let Ok(here) = second else {
        return second;
    };
    let mut behind = primary(text, starts, ends, names, here, left, out, to)?;
    behind.to = put_operator(out, behind.to, minus_code(first.kind));
    Ok(behind)
}

// A number, a name, a previous value, or an expression in brackets.
#[cycle(bracket_expression_factor_primary_term)]
fn primary(
    text: &[u8],
    starts: &[usize],
    ends: &[usize],
    names: Names,
    here: Place,
    left: usize,
    out: &mut [u8],
    to: usize,
) -> Step
    requires declared { Declared starts.now ends.now names }
    requires room { Room text.now here.at to }
    requires stands_at { StandsAt text.now here }
    ensures { Parses text.now bytes_e (primary_in left (scope_of text.now starts.now ends.now names) here.at) to out.old out.new result }
{
    if here.kind == lexer::DIGITS {
        return number(text, here.start, here.end, out, to);
    }
    if here.kind == lexer::NAME {
        return current(text, starts, ends, names, here.start, here.end, out, to);
    }
    if here.kind == lexer::PREVIOUS {
        return previous(text, starts, ends, names, here.start, here.end, out, to);
    }
    if here.kind == lexer::OPEN_ROUND {
        return bracket(
            text, starts, ends, names, here.start, here.end, left, out, to,
        );
    }
    Err(Refusal::NotAllowed(here.start))
}

// An expression in the bracket from `start` to `end`, with `left` brackets left to open.
#[cycle(bracket_expression_factor_primary_term)]
fn bracket(
    text: &[u8],
    starts: &[usize],
    ends: &[usize],
    names: Names,
    start: usize,
    end: usize,
    left: usize,
    out: &mut [u8],
    to: usize,
) -> Step
    requires declared { Declared starts.now ends.now names }
    requires room { Room text.now end to }
    ensures { Parses text.now bytes_e (bracket left (scope_of text.now starts.now ends.now names) start end) to out.old out.new result }
{
    if left == 0 {
        return Err(Refusal::TooMany(start));
    }
    let inner = expression(text, starts, ends, names, end, left - 1, out, to);
    closed(text, inner, lexer::CLOSE_ROUND)
}

// An expression before which no bracket is open.
pub fn whole_expression(
    text: &[u8],
    starts: &[usize],
    ends: &[usize],
    names: Names,
    at: usize,
    out: &mut [u8],
    to: usize,
) -> Step
    requires declared { Declared starts.now ends.now names }
    requires room { Room text.now at to }
    ensures { Parses text.now bytes_e (whole_expression (scope_of text.now starts.now ends.now names) at) to out.old out.new result }
{
    expression(
        text,
        starts,
        ends,
        names,
        at,
        limits::BRACKET_LIMIT,
        out,
        to,
    )
}
