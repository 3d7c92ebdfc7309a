// Conditions, over the expressions of `expressions` and in the same way: each function takes the place where its part starts, writes
// the part's code, and answers with the token behind it.
#![tactic(auto)]

ghost use Rattle.bytecode.specs.Instructions.{comparison_code};
ghost use Rattle.grammar.specs.Conditions.{comparison_by, connective_code, and_of, or_of, square, whole_condition, listed};
ghost use Rattle.grammar.specs.Inner.Bytes.{bytes_c};
ghost use Rattle.expressions.specs.Inner.Scopes.{scope_of, Declared};
ghost use Rattle.expressions.specs.Inner.Steps.{Parses, Room};
ghost use Rattle.expressions.specs.Inner.Readers.{Codes};
ghost use Rattle.conditions.specs.Inner.Readers.{comparison_in, inverted_in, atom_in, conjunction_in, condition_in};

use bytecode::opcode;
use expressions::scope::Names;
use lexer::Step;
use limits::Refusal;

// The bytes of `~` and `[`.
const TILDE_BYTE: u8 = 126;

const SQUARE_BYTE: u8 = 91;

// The code of a comparison sign, of `&` and of `|`; 0 for any other token.
fn comparison_code(kind: u32) -> u8
    ensures { Codes comparison_code comparison_by kind result }
{
    if kind == lexer::EQUALS {
        return opcode::EQUAL;
    }
    if kind == lexer::NOT_EQUAL {
        return opcode::NOT_EQUAL;
    }
    if kind == lexer::LESS {
        return opcode::LESS;
    }
    if kind == lexer::LESS_EQUAL {
        return opcode::LESS_EQUAL;
    }
    if kind == lexer::GREATER {
        return opcode::GREATER;
    }
    if kind == lexer::GREATER_EQUAL {
        return opcode::GREATER_EQUAL;
    }
    0
}

fn and_code(kind: u32) -> u8
    ensures { Codes connective_code and_of kind result }
{
    if kind == lexer::AMPERSAND {
        return opcode::AND;
    }
    0
}

fn or_code(kind: u32) -> u8
    ensures { Codes connective_code or_of kind result }
{
    if kind == lexer::BAR {
        return opcode::OR;
    }
    0
}

// Two expressions with a comparison sign between them.
fn comparison(
    text: &[u8],
    starts: &[usize],
    ends: &[usize],
    names: Names,
    at: usize,
    left: usize,
    out: &mut [u8],
    to: usize,
) -> Step
    requires declared { Declared starts.now ends.now names }
    requires room { Room text.now at to }
    ensures { Parses text.now bytes_c (comparison_in left (scope_of text.now starts.now ends.now names) at) to out.old out.new result }
{
    let sign = expressions::expression(text, starts, ends, names, at, left, out, to)?;
    let code = comparison_code(sign.kind);
    if code == 0 {
        return Err(Refusal::NotAllowed(sign.start));
    }
    let mut behind = expressions::expression(
        text, starts, ends, names, sign.end, left, out, sign.to,
    )?;
    behind.to = leb128::put_byte(out, behind.to, code);
    Ok(behind)
}

// Conjunctions with `|` between them.
#[cycle(atom_condition_conjunction_inverted_square)]
fn condition(
    text: &[u8],
    starts: &[usize],
    ends: &[usize],
    names: Names,
    at: usize,
    left: usize,
    out: &mut [u8],
    to: usize,
) -> Step
    requires declared { Declared starts.now ends.now names }
    requires room { Room text.now at to }
    ensures { Parses text.now bytes_c (condition_in left (scope_of text.now starts.now ends.now names) at) to out.old out.new result }
{
    // with code 0 nothing is read yet, else the parts so far and the operator of that code
    let mut a = at;
    let mut t = to;
    let mut code: u8 = 0;
    // a `loop`: the token behind an operand says whether another follows
    loop {
        let mut behind = conjunction(text, starts, ends, names, a, left, out, t)?;
        behind.to = expressions::put_operator(out, behind.to, code);
        code = or_code(behind.kind);
        if code == 0 {
            return Ok(behind);
        }
        a = behind.end;
        t = behind.to;
    }
}

// Atoms with `&` between them.
#[cycle(atom_condition_conjunction_inverted_square)]
fn conjunction(
    text: &[u8],
    starts: &[usize],
    ends: &[usize],
    names: Names,
    at: usize,
    left: usize,
    out: &mut [u8],
    to: usize,
) -> Step
    requires declared { Declared starts.now ends.now names }
    requires room { Room text.now at to }
    ensures { Parses text.now bytes_c (conjunction_in left (scope_of text.now starts.now ends.now names) at) to out.old out.new result }
{
    // with code 0 nothing is read yet, else the parts so far and the operator of that code
    let mut a = at;
    let mut t = to;
    let mut code: u8 = 0;
    // a `loop`: the token behind an operand says whether another follows
    loop {
        let mut behind = atom(text, starts, ends, names, a, left, out, t)?;
        behind.to = expressions::put_operator(out, behind.to, code);
        code = and_code(behind.kind);
        if code == 0 {
            return Ok(behind);
        }
        a = behind.end;
        t = behind.to;
    }
}

// `~[c]`, `[c]` or a comparison, whose first token is not read twice: no other token begins with the byte of `~` or of `[`.
#[cycle(atom_condition_conjunction_inverted_square)]
fn atom(
    text: &[u8],
    starts: &[usize],
    ends: &[usize],
    names: Names,
    at: usize,
    left: usize,
    out: &mut [u8],
    to: usize,
) -> Step
    requires declared { Declared starts.now ends.now names }
    requires room { Room text.now at to }
    ensures { Parses text.now bytes_c (atom_in left (scope_of text.now starts.now ends.now names) at) to out.old out.new result }
{
    let s = lexer::classes::run(text, at, lexer::classes::Class::Space);
    let first = lexer::classes::byte_at(text, s);
    if first == TILDE_BYTE {
        return inverted(text, starts, ends, names, s + 1, left, out, to);
    }
    if first == SQUARE_BYTE {
        return square(text, starts, ends, names, s, s + 1, left, out, to);
    }
    comparison(text, starts, ends, names, at, left, out, to)
}

// `[c]` behind a `~`.
#[cycle(atom_condition_conjunction_inverted_square)]
fn inverted(
    text: &[u8],
    starts: &[usize],
    ends: &[usize],
    names: Names,
    at: usize,
    left: usize,
    out: &mut [u8],
    to: usize,
) -> Step
    requires declared { Declared starts.now ends.now names }
    requires room { Room text.now at to }
    ensures { Parses text.now bytes_c (inverted_in left (scope_of text.now starts.now ends.now names) at) to out.old out.new result }
{
    let read = expressions::ahead(text, at, to);
    let Ok(here) = read else {
        return read;
    };
    if here.kind == lexer::OPEN_SQUARE {
        let mut behind = square(
            text, starts, ends, names, here.start, here.end, left, out, to,
        )?;
        behind.to = leb128::put_byte(out, behind.to, opcode::NOT);
        return Ok(behind);
    }
    Err(Refusal::NotAllowed(here.start))
}

// A condition in the bracket from `start` to `end`, with `left` brackets left to open.
#[cycle(atom_condition_conjunction_inverted_square)]
fn square(
    text: &[u8],
    starts: &[usize],
    ends: &[usize],
    names: Names,
    start: usize,
    end: usize,
    left: usize,
    out: &mut [u8],
    to: usize,
) -> Step
    requires declared { Declared starts.now ends.now names }
    requires room { Room text.now end to }
    ensures { Parses text.now bytes_c (square left (scope_of text.now starts.now ends.now names) start end) to out.old out.new result }
{
    if left == 0 {
        return Err(Refusal::TooMany(start));
    }
    let inner = condition(text, starts, ends, names, end, left - 1, out, to);
    expressions::closed(text, inner, lexer::CLOSE_SQUARE)
}

// A condition before which no bracket is open.
fn whole_condition(
    text: &[u8],
    starts: &[usize],
    ends: &[usize],
    names: Names,
    at: usize,
    out: &mut [u8],
    to: usize,
) -> Step
    requires declared { Declared starts.now ends.now names }
    requires room { Room text.now at to }
    ensures { Parses text.now bytes_c (whole_condition (scope_of text.now starts.now ends.now names) at) to out.old out.new result }
{
    condition(
        text,
        starts,
        ends,
        names,
        at,
        limits::BRACKET_LIMIT,
        out,
        to,
    )
}

// `[c]` as the rule forms show it, from behind its bracket.
pub fn listed(
    text: &[u8],
    starts: &[usize],
    ends: &[usize],
    names: Names,
    at: usize,
    out: &mut [u8],
    to: usize,
) -> Step
    requires declared { Declared starts.now ends.now names }
    requires room { Room text.now at to }
    ensures { Parses text.now bytes_c (listed (scope_of text.now starts.now ends.now names) at) to out.old out.new result }
{
    let inner = whole_condition(text, starts, ends, names, at, out, to);
    expressions::closed(text, inner, lexer::CLOSE_SQUARE)
}
