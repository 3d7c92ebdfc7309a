// The formulas of a rule, after its variable's name.
ghost use Rattle.std.specs.Prelude.{◌<◌};
ghost use Rattle.limits.specs.Limits.{name_limit};
ghost use Rattle.lexer.specs.Bytes.{part};
ghost use Rattle.grammar.specs.Rules.{function_at, change_at, pair_at, formula_at, formulas as formulasAt};
ghost use Rattle.grammar.specs.Inner.Names.{Named};
ghost use Rattle.semantics.specs.Program.{target};
ghost use Rattle.expressions.specs.Inner.Scopes.{scope_of, Declared};
ghost use Rattle.expressions.specs.Inner.Steps.{Room};
ghost use Rattle.phrases.specs.Inner.Steps.{number_told, Writes};
ghost use Rattle.rules.specs.Inner.Spans.{code_of_rule, SpanRoom};

use bytecode::opcode;
use cases::Variable;
use expressions::scope::Names;
use lexer::Step;

// `w = (e));`
fn function(
    text: &[u8],
    starts: &[usize],
    ends: &[usize],
    names: Names,
    w: Variable,
    at: usize,
    out: &mut [u8],
    to: usize,
) -> Step
    requires declared { Declared starts.now ends.now names }
    requires room { Room text.now at to }
    requires id_lt_name_limit { w.id < name_limit }
    ensures { Writes code_of_rule number_told target (function_at (scope_of text.now starts.now ends.now names) (part text.now w.start w.end) w.id at) to out.old out.new result }
{
    let a = phrases::value_opening(text, at, w.start, w.end)?;
    let behind = expressions::whole_expression(text, starts, ends, names, a.at, out, to)?;
    let b = phrases::function_closing(text, behind.at)?;
    let t = bytecode::put_instruction(out, behind.to, opcode::LET, w.id as u64);
    lexer::reached(b.at, t, w.id)
}

// `(w = _w) -> [c] & w = (e) | ..);` and `w: GX(w = _w -> ~([c] | ..));`. Where the conditions stand is kept in `from` and `upto`.
fn change(
    text: &[u8],
    starts: &[usize],
    ends: &[usize],
    names: Names,
    w: Variable,
    from: &mut [usize],
    upto: &mut [usize],
    at: usize,
    out: &mut [u8],
    to: usize,
) -> Step
    requires declared { Declared starts.now ends.now names }
    requires room { Room text.now at to }
    requires id_lt_name_limit { w.id < name_limit }
    requires span_room { SpanRoom from.old upto.old }
    requires named { Named (scope_of text.now starts.now ends.now names).names }
    ensures { Writes code_of_rule number_told target (change_at (scope_of text.now starts.now ends.now names) (part text.now w.start w.end) w.id at) to out.old out.new result }
{
    let a = phrases::change_opening(text, at, w.start, w.end)?;
    let b = cases::cases(
        text,
        starts,
        ends,
        names,
        w,
        opcode::PICK,
        limits::CASE_LIMIT,
        from,
        upto,
        a.at,
        out,
        to,
    )?;
    let d = phrases::no_change_opening(text, b.at, w.start, w.end)?;
    let e = cases::agreeing_list(text, starts, ends, names, from, upto, b.number, d.at)?;
    let f = phrases::formula_closing(text, e.at)?;
    let t = bytecode::put_instruction(out, b.to, opcode::SETTLE, w.id as u64);
    lexer::reached(f.at, t, w.id)
}

// `: GX(w > _w -> [c] & w = (e) | ..);` and `w-: GX(w < _w -> [c] & w = (e) | ..);`, at most 32 cases in the two together.
fn pair(
    text: &[u8],
    starts: &[usize],
    ends: &[usize],
    names: Names,
    w: Variable,
    from: &mut [usize],
    upto: &mut [usize],
    at: usize,
    out: &mut [u8],
    to: usize,
) -> Step
    requires declared { Declared starts.now ends.now names }
    requires room { Room text.now at to }
    requires id_lt_name_limit { w.id < name_limit }
    requires span_room { SpanRoom from.old upto.old }
    ensures { Writes code_of_rule number_told target (pair_at (scope_of text.now starts.now ends.now names) (part text.now w.start w.end) w.id at) to out.old out.new result }
{
    let a = phrases::turned_opening(text, at, w.start, w.end, lexer::GREATER)?;
    let b = cases::cases(
        text,
        starts,
        ends,
        names,
        w,
        opcode::RISE,
        limits::CASE_LIMIT,
        from,
        upto,
        a.at,
        out,
        to,
    )?;
    let d = phrases::falling_opening(text, b.at, w.start, w.end)?;
    let left = limits::CASE_LIMIT - b.number;
    let g = cases::cases(
        text,
        starts,
        ends,
        names,
        w,
        opcode::FALL,
        left,
        from,
        upto,
        d.at,
        out,
        b.to,
    )?;
    let f = phrases::formula_closing(text, g.at)?;
    let t = bytecode::put_instruction(out, g.to, opcode::SETTLE, w.id as u64);
    lexer::reached(f.at, t, w.id)
}

// A function, or a change formula and its no-change formula, of the variable, after its name.
fn formula(
    text: &[u8],
    starts: &[usize],
    ends: &[usize],
    names: Names,
    w: Variable,
    from: &mut [usize],
    upto: &mut [usize],
    at: usize,
    out: &mut [u8],
    to: usize,
) -> Step
    requires declared { Declared starts.now ends.now names }
    requires room { Room text.now at to }
    requires id_lt_name_limit { w.id < name_limit }
    requires span_room { SpanRoom from.old upto.old }
    requires named { Named (scope_of text.now starts.now ends.now names).names }
    ensures { Writes code_of_rule number_told target (formula_at (scope_of text.now starts.now ends.now names) (part text.now w.start w.end) w.id at) to out.old out.new result }
{
    let a = phrases::rule_opening(text, at)?;
    let read = lexer::token_at(text, a.at);
    let Ok(token) = read else {
        return read;
    };
    if token.kind == lexer::TILDE {
        return change(text, starts, ends, names, w, from, upto, token.end, out, to);
    }
    function(text, starts, ends, names, w, a.at, out, to)
}

// The rule of the variable, after its name.
pub fn formulas(
    text: &[u8],
    starts: &[usize],
    ends: &[usize],
    names: Names,
    w: Variable,
    from: &mut [usize],
    upto: &mut [usize],
    at: usize,
    out: &mut [u8],
    to: usize,
) -> Step
    requires declared { Declared starts.now ends.now names }
    requires room { Room text.now at to }
    requires id_lt_name_limit { w.id < name_limit }
    requires span_room { SpanRoom from.old upto.old }
    requires named { Named (scope_of text.now starts.now ends.now names).names }
    ensures { Writes code_of_rule number_told target (formulasAt (scope_of text.now starts.now ends.now names) (part text.now w.start w.end) w.id at) to out.old out.new result }
{
    let read = lexer::token_at(text, at);
    let Ok(token) = read else {
        return read;
    };
    if token.kind == lexer::PLUS {
        return pair(text, starts, ends, names, w, from, upto, token.end, out, to);
    }
    formula(text, starts, ends, names, w, from, upto, at, out, to)
}
