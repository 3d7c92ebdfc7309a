// The two lists of conditions of a change rule, compared token by token in spelling. Each answer is the place after what agrees, or a
// refusal at the first token that is not the one wanted.
#![tactic(auto)]

ghost use Rattle.std.specs.Prelude.{cond, ◌≡◌, List, ◌≤◌, ltb, length};
ghost use Rattle.lexer.specs.Results.{kind_of};
ghost use Rattle.lexer.specs.Token.{kind_number, close_round, bar, last_kind};
ghost use Rattle.grammar.specs.Rules.{Spanned, part_from, kind_at, parts_from};
ghost use Rattle.grammar.specs.Inner.Names.{TokensIn};
ghost use Rattle.agreement.specs.Inner.Comparison.{compared_of, RepetitionBy};
ghost use Rattle.agreement.specs.Inner.Spans.{spans_in, spans_of, Spans, SpansRead};

use lexer::Step;
use limits::Refusal;

// The tokens from `from` up to `to` are wanted at `at`, token by token.
fn compare_tokens(text: &[u8], from: usize, to: usize, at: usize) -> Step
    requires { to ≤ length text.now }
    ensures { compared_of result ≡ part_from (length text.now) text.now from to at }
{
    let mut a = from;
    let mut b = at;
    // a `while`: both places move on by a token's length, which is known when it is read
    while a < to {
        let wanted = lexer::token_at(text, a);
        let Ok(token) = wanted else {
            return wanted;
        };
        let found = lexer::token_at(text, b);
        let Ok(token2) = found else {
            return found;
        };
        if lexer::same_token(
            text,
            token.kind,
            token.start,
            token.end,
            token2.kind,
            token2.start,
            token2.end,
        ) {
            a = token.end;
            b = token2.end;
        } else {
            return Err(Refusal::ListsDiffer(token2.start));
        }
    }
    lexer::reached(b, 0, 0)
}

// Where the bytes of a part stand once more at `at`, the space before them apart, so do its tokens: it ends with a `]`, over which no
// token goes on. The place after them, or nothing.
fn repeated(text: &[u8], from: usize, to: usize, at: usize) -> Option<usize>
    requires { to ≤ length text.now }
    ensures { RepetitionBy text.now from to at result }
{
    let first = lexer::classes::run(text, from, lexer::classes::Class::Space);
    let second = lexer::classes::run(text, at, lexer::classes::Class::Space);
    if to <= first {
        return None;
    }
    let last = to - 1;
    if text[last] != 93 {
        return None;
    }
    let size = to - first;
    if text.len() - size < second {
        return None;
    }
    let end = second + size;
    if lexer::classes::same_bytes(lexer::name(text, first, to), lexer::name(text, second, end)) {
        return Some(end);
    }
    None
}

// The tokens from `from` up to `to` are wanted at `at`: compared as bytes first, which settles nearly every text that is accepted.
fn compare_part(text: &[u8], from: usize, to: usize, at: usize) -> Step
    requires to_in_bounds { to ≤ length text.now }
    requires tokens_in { TokensIn text.now from to }
    ensures { compared_of result ≡ part_from (length text.now) text.now from to at }
{
    if let Some(end) = repeated(text, from, to, at) {
        return lexer::reached(end, 0, 0);
    }
    compare_tokens(text, from, to, at)
}

// A token of a kind is wanted at `at`.
fn compare_sign(text: &[u8], kind: u32, at: usize) -> Step
    requires { kind ≤ last_kind }
    ensures { compared_of result ≡ kind_at text.now (kind_of kind) at }
{
    let found = lexer::token_at(text, at);
    let Ok(token) = found else {
        return found;
    };
    if token.kind == kind {
        return lexer::reached(token.end, 0, 0);
    }
    Err(Refusal::ListsDiffer(token.start))
}

// The sign after a condition: `|` before another, `)` after the last.
fn separator(next: usize, count: usize) -> u32
    ensures { result ≡ kind_number (cond (ltb next count) bar close_round) }
{
    if next < count {
        return lexer::BAR;
    }
    lexer::CLOSE_ROUND
}

// The conditions that stand from `from[i]` up to `to[i]` are wanted at `at`, with `|` between them and `)` after the last.
pub fn compare_lists(text: &[u8], from: &[usize], to: &[usize], count: usize, at: usize) -> Step
    requires spans { Spans text.now from.now to.now count }
    requires spans_read { SpansRead text.now from.now to.now count }
    ensures { (cases : List Spanned) → spans_of cases ≡ spans_in from.now to.now count → compared_of result ≡ parts_from text.now cases at }
{
    let mut a = at;
    for i in 0..count {
        let n = compare_part(text, from[i], to[i], a)?;
        let m = compare_sign(text, separator(i + 1, count), n.at)?;
        a = m.at;
    }
    lexer::reached(a, 0, 0)
}
