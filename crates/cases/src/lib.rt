// The cases of a change formula and the conditions of its no-change formula. A case is written as it is read.
#![tactic(auto)]

ghost use Rattle.std.specs.Prelude.{◌≡◌, List, [], ◌∷◌, ℕ, ◌+◌, ◌≤◌, ◌<◌, length};
ghost use Rattle.limits.specs.Limits.{case_limit, name_limit};
ghost use Rattle.lexer.specs.Bytes.{part};
ghost use Rattle.semantics.specs.Program.{Condition};
ghost use Rattle.grammar.specs.Parsed.{Parsed};
ghost use Rattle.grammar.specs.Rules.{Spanned, case_at, cases_from, plain_list, differs, first_found, agreeing_list};
ghost use Rattle.grammar.specs.Inner.Names.{Named};
ghost use Rattle.expressions.specs.Inner.Scopes.{scope_of, Declared};
ghost use Rattle.expressions.specs.Inner.Steps.{Room};
ghost use Rattle.phrases.specs.Inner.Steps.{parsed_of, nothing, number_told, Writes};
ghost use Rattle.agreement.specs.Inner.Spans.{spans_in, spans_of, Spans};
ghost use Rattle.cases.specs.Inner.Places.{place_only};
ghost use Rattle.cases.specs.Inner.Kept.{code_of_case, code_of_cases, end_of_condition, Lists, ListKept};

use bytecode::opcode;
use expressions::scope::Names;
use lexer::Step;
use limits::Refusal;

// The variable of a rule: its name stands from `start` to `end`.
#[derive(Clone, Copy)]
pub struct Variable {
    pub start: usize,
    pub end: usize,
    pub id: usize,
}

// `c] & w = (e)`, after the bracket that ends at `at`, written with this code byte for its pick. The number told is where the condition ends, its bracket included.
fn case(
    text: &[u8],
    starts: &[usize],
    ends: &[usize],
    names: Names,
    w: Variable,
    pick: u8,
    at: usize,
    out: &mut [u8],
    to: usize,
) -> Step
    requires declared { Declared starts.now ends.now names }
    requires room { Room text.now at to }
    requires id_lt_name_limit { w.id < name_limit }
    ensures { (from : ℕ) → Writes (code_of_case pick w.id) number_told end_of_condition (case_at (scope_of text.now starts.now ends.now names) (part text.now w.start w.end) from at) to out.old out.new result }
{
    let condition = conditions::listed(text, starts, ends, names, at, out, to)?;
    let a = phrases::case_value_opening(text, condition.at, w.start, w.end)?;
    let u = leb128::put_byte(out, condition.to, opcode::GATE);
    let value = expressions::whole_expression(text, starts, ends, names, a.at, out, u)?;
    let b = phrases::expect(text, value.at, lexer::CLOSE_ROUND)?;
    let v = bytecode::put_instruction(out, value.to, pick, w.id as u64);
    lexer::reached(b.at, v, condition.at)
}

// At most `limit` cases with `|` between them. Where their conditions stand is kept in `from` and `upto`; the number told is how many there are.
pub fn cases(
    text: &[u8],
    starts: &[usize],
    ends: &[usize],
    names: Names,
    w: Variable,
    pick: u8,
    limit: usize,
    from: &mut [usize],
    upto: &mut [usize],
    at: usize,
    out: &mut [u8],
    to: usize,
) -> Step
    requires declared { Declared starts.now ends.now names }
    requires room { Room text.now at to }
    requires id_lt_name_limit { w.id < name_limit }
    requires limit_in_bounds { (limit ≤ length from.old) × (limit ≤ length upto.old) × (limit ≤ case_limit) }
    ensures writes { Writes (code_of_cases pick w.id) number_told length (cases_from limit (scope_of text.now starts.now ends.now names) (part text.now w.start w.end) [] at) to out.old out.new result }
    ensures lists { Lists (cases_from limit (scope_of text.now starts.now ends.now names) (part text.now w.start w.end) [] at) text.now from.new upto.new }
{
    let mut a = at;
    let mut t = to;
    let mut count = 0;
    // a `loop`: the token behind a case says whether another follows
    loop {
        let read = lexer::token_at(text, a);
        let Ok(token) = read else {
            return read;
        };
        if token.kind != lexer::OPEN_SQUARE {
            return Err(Refusal::NotAllowed(token.start));
        }
        if count == limit {
            return Err(Refusal::TooMany(token.start));
        }
        let b = case(text, starts, ends, names, w, pick, token.end, out, t)?;
        from[count] = a;
        upto[count] = b.number;
        count += 1;
        let next = lexer::token_at(text, b.at);
        let Ok(after) = next else {
            return next;
        };
        if after.kind != lexer::BAR {
            return lexer::reached(b.at, b.to, count);
        }
        a = after.end;
        t = b.to;
    }
}

// `[c] | [c])`, whatever the first list is: read without a byte written.
fn plain_list(text: &[u8], starts: &[usize], ends: &[usize], names: Names, at: usize) -> Step
    requires declared { Declared starts.now ends.now names }
    requires room { Room text.now at 0 }
    ensures { parsed_of nothing result ≡ place_only (plain_list (scope_of text.now starts.now ends.now names) at) }
{
    let mut nothing = [0u8; 0];
    let mut a = at;
    let mut left = limits::CASE_LIMIT;
    // a `loop`: the token behind a case says whether another follows
    loop {
        let read = lexer::token_at(text, a);
        let Ok(bracket) = read else {
            return read;
        };
        if bracket.kind != lexer::OPEN_SQUARE {
            return Err(Refusal::NotAllowed(bracket.start));
        }
        if left == 0 {
            return Err(Refusal::TooMany(bracket.start));
        }
        let behind = conditions::listed(text, starts, ends, names, bracket.end, &mut nothing, 0)?;
        if behind.kind != lexer::BAR {
            return phrases::expect(text, behind.at, lexer::CLOSE_ROUND);
        }
        a = behind.end;
        left -= 1;
    }
}

// The second list differs first at m. Token by token and in number order at each: a refusal before m, or of 1 to 5 at m; else 7.
fn first_found(read: Step, m: usize) -> Step
    ensures { (p : Parsed (List Condition)) → parsed_of nothing read ≡ place_only p → parsed_of nothing result ≡ place_only (first_found p (differs m)) }
{
    let Err(refusal) = read else {
        return Err(Refusal::ListsDiffer(m));
    };
    let p = refusal.place();
    if p < m {
        return read;
    }
    if p == m && refusal.number() <= 5 {
        return read;
    }
    Err(Refusal::ListsDiffer(m))
}

// The no-change formula's list and its closing bracket, where the list of the change formula, which was read, is kept in `from` and
// `upto`. A list that agrees needs no reading: its tokens read as the conditions that they read as before.
pub fn agreeing_list(
    text: &[u8],
    starts: &[usize],
    ends: &[usize],
    names: Names,
    from: &[usize],
    upto: &[usize],
    count: usize,
    at: usize,
) -> Step
    requires declared { Declared starts.now ends.now names }
    requires room { Room text.now at 0 }
    requires spans { Spans text.now from.now upto.now count }
    requires named { Named (scope_of text.now starts.now ends.now names).names }
    requires list_kept { ListKept (scope_of text.now starts.now ends.now names) from.now upto.now count }
    ensures { (cases : List Spanned) → spans_of cases ≡ spans_in from.now upto.now count → parsed_of nothing result ≡ place_only (agreeing_list (scope_of text.now starts.now ends.now names) cases at) }
{
    let compared = agreement::compare_lists(text, from, upto, count, at);
    let Err(refusal) = compared else {
        return compared;
    };
    first_found(plain_list(text, starts, ends, names, at), refusal.place())
}
