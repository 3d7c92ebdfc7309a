// Watches: `watch: G([c]);` and `watch: G([c] -> X([c]));`. The code of a watch's conditions is written as they are read.
#![tactic(auto)]

ghost use Rattle.std.specs.Prelude.{List, [], ℕ};
ghost use Rattle.limits.specs.Limits.{watch_limit};
ghost use Rattle.semantics.specs.Program.{Condition};
ghost use Rattle.grammar.specs.Watches.{later_at, watch_at, watches_from};
ghost use Rattle.expressions.specs.Inner.Scopes.{scope_of, Declared};
ghost use Rattle.expressions.specs.Inner.Steps.{Room, looked_ahead};
ghost use Rattle.expressions.specs.Inner.Readers.{StandsAt};
ghost use Rattle.phrases.specs.Inner.Steps.{number_told, Writes};
ghost use Rattle.watches.specs.Inner.Codes.{code_of_watch, code_of_later, end_of_first, no_code, watches_told, watches_behind};

use expressions::scope::Names;
use lexer::{Place, Step};
use limits::Refusal;

// `X([c]));` after the `->` of a watch.
fn later(
    text: &[u8],
    starts: &[usize],
    ends: &[usize],
    names: Names,
    at: usize,
    out: &mut [u8],
    to: usize,
) -> Step
    requires declared { Declared starts.now ends.now names }
    requires room { Room text.now at to }
    ensures { (c : Condition) → Writes code_of_later number_told (λ w. to) (later_at (scope_of text.now starts.now ends.now names) c at) to out.old out.new result }
{
    let a = phrases::later_opening(text, at)?;
    let behind = conditions::listed(text, starts, ends, names, a.at, out, to)?;
    let b = phrases::function_closing(text, behind.at)?;
    lexer::reached(b.at, behind.to, to)
}

// The watch after its word: the code of its first condition, then that of its second. The number told is where the first ends.
pub fn watch(
    text: &[u8],
    starts: &[usize],
    ends: &[usize],
    names: Names,
    at: usize,
    out: &mut [u8],
    to: usize,
) -> Step
    requires declared { Declared starts.now ends.now names }
    requires room { Room text.now at to }
    ensures { Writes code_of_watch number_told (end_of_first to) (watch_at (scope_of text.now starts.now ends.now names) at) to out.old out.new result }
{
    let a = phrases::watch_opening(text, at)?;
    let behind = conditions::listed(text, starts, ends, names, a.at, out, to)?;
    if behind.kind == lexer::ARROW {
        return later(text, starts, ends, names, behind.end, out, behind.to);
    }
    let b = phrases::formula_closing(text, behind.at)?;
    lexer::reached(b.at, behind.to, behind.to)
}

// All watches, the first token of which is at hand: read without a byte written. Told are how many there are, and the token behind them.
pub fn watches(text: &[u8], starts: &[usize], ends: &[usize], names: Names, first: Place) -> Step
    requires declared { Declared starts.now ends.now names }
    requires room { Room text.now first.at 0 }
    requires stands_at { StandsAt text.now first }
    ensures { Writes no_code watches_told watches_behind (looked_ahead text.now (watches_from watch_limit (scope_of text.now starts.now ends.now names) [] first.at)) 0 [] [] result }
{
    let mut nothing = [0u8; 0];
    let mut at = first.at;
    let mut kind = first.kind;
    let mut start = first.start;
    let mut end = first.end;
    let mut count = 0;
    // a `while`: the token behind a watch says whether another follows
    while kind == lexer::WATCH {
        if count == limits::WATCH_LIMIT {
            return Err(Refusal::TooManyWatches(start));
        }
        let b = watch(text, starts, ends, names, end, &mut nothing, 0)?;
        let read = lexer::token_at(text, b.at);
        let Ok(next) = read else {
            return read;
        };
        at = b.at;
        kind = next.kind;
        start = next.start;
        end = next.end;
        count += 1;
    }
    Ok(Place {
        at,
        kind,
        value: 0,
        start,
        end,
        to: 0,
        number: count,
    })
}
