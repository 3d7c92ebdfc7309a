// The rules of a text: functions, change formulas with their no-change formulas, and pairs of a rising and a falling formula. A rule is written as it is read.
#![tactic(auto)]

ghost use Rattle.std.specs.Prelude.{◌≡◌, List, [], ◌≤◌, ◌<◌};
ghost use Rattle.limits.specs.Limits.{name_limit};
ghost use Rattle.grammar.specs.Parsed.{item_bound};
ghost use Rattle.grammar.specs.Rules.{rule_at, rules_from};
ghost use Rattle.grammar.specs.Inner.Names.{Named};
ghost use Rattle.semantics.specs.Program.{Timer, target};
ghost use Rattle.expressions.specs.Inner.Scopes.{scope_of, Declared};
ghost use Rattle.expressions.specs.Inner.Steps.{Room, looked_ahead};
ghost use Rattle.phrases.specs.Inner.Steps.{number_told, Writes};
ghost use Rattle.rules.specs.Inner.Spans.{code_of_rule, SpanRoom, end_of};
ghost use Rattle.rules.specs.Inner.Behind.{code_of_rules, ruled_told, ruled_behind};
ghost use Rattle.rules.specs.Inner.Timers.{timers_in, TimersFrom, TimerTables};

use cases::Variable;
use expressions::scope::Names;
use lexer::{Place, Step};
use limits::Refusal;

pub mod formulas;
pub mod timers;

// The rule whose name stands from `start` to `end`. The number told is the variable's id. The names from the id `first` on are timers.
fn rule(
    text: &[u8],
    starts: &[usize],
    ends: &[usize],
    names: Names,
    first: usize,
    start: usize,
    end: usize,
    from: &mut [usize],
    upto: &mut [usize],
    out: &mut [u8],
    to: usize,
) -> Step
    requires declared { Declared starts.now ends.now names }
    requires room { Room text.now end to }
    requires span_room { SpanRoom from.old upto.old }
    requires named { Named (scope_of text.now starts.now ends.now names).names }
    ensures { (ts : List Timer) → TimersFrom first names.count ts → Writes code_of_rule number_told target (rule_at ts (scope_of text.now starts.now ends.now names) start end) to out.old out.new result }
{
    if lexer::is_over_long(start, end) {
        return Err(Refusal::TooMany(start));
    }
    let name = lexer::name(text, start, end);
    let Some(id) = lexer::find(text, starts, ends, names.count, name) else {
        return Err(Refusal::WrongName(start));
    };
    if first <= id {
        return Err(Refusal::WrongRule(start));
    }
    if expressions::scope::is_known(names, id) {
        return Err(Refusal::WrongRule(start));
    }
    formulas::formulas(
        text,
        starts,
        ends,
        names,
        Variable { start, end, id },
        from,
        upto,
        end,
        out,
        to,
    )
}

// The end of the text, if that token is it: every variable has a rule.
pub fn finish(kind: u32, start: usize, end: usize, names: Names, t: usize, done: usize) -> Step
    requires { names.count ≤ name_limit }
    ensures { result ≡ end_of kind start end names t done }
{
    if kind != lexer::END {
        return Err(Refusal::NotAllowed(start));
    }
    if expressions::scope::all_known(names) {
        return lexer::reached(end, t, done);
    }
    Err(Refusal::WrongRule(start))
}

// Rules up to the first token that is no name, which is told with the names then known, as bits.
fn rules_in(
    text: &[u8],
    starts: &[usize],
    ends: &[usize],
    names: Names,
    watched: &[u8],
    limits: &[u32],
    first: usize,
    from: &mut [usize],
    upto: &mut [usize],
    at: usize,
    out: &mut [u8],
    to: usize,
) -> Step
    requires declared { Declared starts.now ends.now names }
    requires room { Room text.now at to }
    requires span_room { SpanRoom from.old upto.old }
    requires timer_tables { TimerTables watched.now limits.now names.count }
    requires named { Named (scope_of text.now starts.now ends.now names).names }
    ensures { Writes (code_of_rules (timers_in watched.now limits.now first names.count)) (ruled_told names.count) ruled_behind (looked_ahead text.now (rules_from item_bound (timers_in watched.now limits.now first names.count) (scope_of text.now starts.now ends.now names) [] at)) to out.old out.new result }
{
    let count = names.count;
    let mut known = names.known;
    let mut a = at;
    let mut t = to;
    // a `loop`: the token behind a rule says whether another follows
    loop {
        let read = lexer::token_at(text, a);
        let Ok(token) = read else {
            return read;
        };
        if token.kind != lexer::NAME {
            return Ok(Place {
                at: a,
                kind: token.kind,
                value: 0,
                start: token.start,
                end: token.end,
                to: t,
                number: known as usize,
            });
        }
        let b = rule(
            text,
            starts,
            ends,
            Names { count, known },
            first,
            token.start,
            token.end,
            from,
            upto,
            out,
            t,
        )?;
        let more = expressions::scope::ruled(Names { count, known }, b.number);
        let names = Names {
            count,
            known: more.known,
        };
        let behind = timers::timers_of(watched, limits, first, names, b.number, out, b.to);
        known = behind.known;
        a = b.at;
        t = behind.to;
    }
}

pub fn rules(
    text: &[u8],
    starts: &[usize],
    ends: &[usize],
    names: Names,
    watched: &[u8],
    limits: &[u32],
    first: usize,
    at: usize,
    out: &mut [u8],
    to: usize,
) -> Step
    requires declared { Declared starts.now ends.now names }
    requires room { Room text.now at to }
    requires timer_tables { TimerTables watched.now limits.now names.count }
    requires named { Named (scope_of text.now starts.now ends.now names).names }
    ensures { Writes (code_of_rules (timers_in watched.now limits.now first names.count)) (ruled_told names.count) ruled_behind (looked_ahead text.now (rules_from item_bound (timers_in watched.now limits.now first names.count) (scope_of text.now starts.now ends.now names) [] at)) to out.old out.new result }
{
    let mut from = [0usize; limits::CASE_LIMIT];
    let mut upto = [0usize; limits::CASE_LIMIT];
    rules_in(
        text, starts, ends, names, watched, limits, first, &mut from, &mut upto, at, out, to,
    )
}
