// Fixed tokens of the rule forms: each is taken out of its answer, and a refusal is passed on.
#![tactic(auto)]

ghost use Rattle.std.specs.Prelude.{◌≡◌, [], ◌∷◌, ◌≤◌};
ghost use Rattle.lexer.specs.Bytes.{part};
ghost use Rattle.lexer.specs.Results.{kind_of};
ghost use Rattle.lexer.specs.Token.{last_kind};
ghost use Rattle.grammar.specs.Parsed.{sign, own, own_previous, expected, phrase};
ghost use Rattle.grammar.specs.Forms.{rule_opening, formula_closing, function_closing, value_opening, case_value_opening, change_opening, no_change_opening, turned_value, turned_opening, falling_opening, watch_opening, later_opening};
ghost use Rattle.phrases.specs.Inner.Steps.{parsed_of, nothing};

use lexer::Step;
use limits::Refusal;

// A token of a kind. Here, and wherever a token is read, `let .. else` takes it out of its answer: the project's form.
pub fn expect(text: &[u8], at: usize, kind: u32) -> Step
    requires { kind ≤ last_kind }
    ensures { parsed_of nothing result ≡ expected text.now (sign (kind_of kind)) at }
{
    let read = lexer::token_at(text, at);
    let Ok(found) = read else {
        return read;
    };
    if found.kind == kind {
        return lexer::reached(found.end, 0, 0);
    }
    Err(Refusal::NotAllowed(found.start))
}

// The name that the text spells from `start` to `end`.
fn expect_name(text: &[u8], at: usize, start: usize, end: usize) -> Step
    ensures { parsed_of nothing result ≡ expected text.now (own (part text.now start end)) at }
{
    let read = lexer::token_at(text, at);
    let Ok(token) = read else {
        return read;
    };
    if token.kind == lexer::NAME {
        if lexer::same_name(
            lexer::name(text, start, end),
            lexer::name(text, token.start, token.end),
        ) {
            return lexer::reached(token.end, 0, 0);
        }
    }
    Err(Refusal::NotAllowed(token.start))
}

// The previous value of that name: it stands after the `_`.
fn expect_previous(text: &[u8], at: usize, start: usize, end: usize) -> Step
    ensures { parsed_of nothing result ≡ expected text.now (own_previous (part text.now start end)) at }
{
    let read = lexer::token_at(text, at);
    let Ok(token) = read else {
        return read;
    };
    if token.kind == lexer::PREVIOUS {
        if lexer::same_name(
            lexer::name(text, start, end),
            lexer::name(text, token.start + 1, token.end),
        ) {
            return lexer::reached(token.end, 0, 0);
        }
    }
    Err(Refusal::NotAllowed(token.start))
}

// Tokens of two kinds.
fn two_signs(text: &[u8], at: usize, one: u32, two: u32) -> Step
    requires { (one ≤ last_kind) × (two ≤ last_kind) }
    ensures { parsed_of nothing result ≡ phrase text.now (sign (kind_of one) ∷ sign (kind_of two) ∷ []) at }
{
    let a = expect(text, at, one)?;
    expect(text, a.at, two)
}

// Tokens of three kinds.
fn three_signs(text: &[u8], at: usize, one: u32, two: u32, three: u32) -> Step
    requires { (one ≤ last_kind) × (two ≤ last_kind) × (three ≤ last_kind) }
    ensures { parsed_of nothing result ≡ phrase text.now (sign (kind_of one) ∷ sign (kind_of two) ∷ sign (kind_of three) ∷ []) at }
{
    let a = expect(text, at, one)?;
    two_signs(text, a.at, two, three)
}

// After a rule's name: `: GX (`.
pub fn rule_opening(text: &[u8], at: usize) -> Step
    ensures { parsed_of nothing result ≡ phrase text.now rule_opening at }
{
    three_signs(text, at, lexer::COLON, lexer::GX, lexer::OPEN_ROUND)
}

// The end of a formula: `) ;`.
pub fn formula_closing(text: &[u8], at: usize) -> Step
    ensures { parsed_of nothing result ≡ phrase text.now formula_closing at }
{
    two_signs(text, at, lexer::CLOSE_ROUND, lexer::SEMICOLON)
}

// The end of a function: `) ) ;`.
pub fn function_closing(text: &[u8], at: usize) -> Step
    ensures { parsed_of nothing result ≡ phrase text.now function_closing at }
{
    let a = expect(text, at, lexer::CLOSE_ROUND)?;
    formula_closing(text, a.at)
}

// Before a value of the name w from `start` to `end`: `w = (`.
pub fn value_opening(text: &[u8], at: usize, start: usize, end: usize) -> Step
    ensures { parsed_of nothing result ≡ phrase text.now (value_opening (part text.now start end)) at }
{
    let a = expect_name(text, at, start, end)?;
    two_signs(text, a.at, lexer::EQUALS, lexer::OPEN_ROUND)
}

// Between the condition and the value of a case: `& w = (`.
pub fn case_value_opening(text: &[u8], at: usize, start: usize, end: usize) -> Step
    ensures { parsed_of nothing result ≡ phrase text.now (case_value_opening (part text.now start end)) at }
{
    let a = expect(text, at, lexer::AMPERSAND)?;
    value_opening(text, a.at, start, end)
}

// `w = _w`, `w > _w` and `w < _w`: the sign is of a kind.
fn own_values(text: &[u8], at: usize, start: usize, end: usize, kind: u32) -> Step
    requires { kind ≤ last_kind }
    ensures { parsed_of nothing result ≡ phrase text.now (own (part text.now start end) ∷ sign (kind_of kind) ∷ own_previous (part text.now start end) ∷ []) at }
{
    let a = expect_name(text, at, start, end)?;
    let b = expect(text, a.at, kind)?;
    expect_previous(text, b.at, start, end)
}

// A change formula after `w : GX ( ~`: `( w = _w ) ->`.
pub fn change_opening(text: &[u8], at: usize, start: usize, end: usize) -> Step
    ensures { parsed_of nothing result ≡ phrase text.now (change_opening (part text.now start end)) at }
{
    let a = expect(text, at, lexer::OPEN_ROUND)?;
    let b = own_values(text, a.at, start, end, lexer::EQUALS)?;
    two_signs(text, b.at, lexer::CLOSE_ROUND, lexer::ARROW)
}

// The end of a change formula and its no-change formula up to the list: `) ; w : GX ( w = _w -> ~ (`.
pub fn no_change_opening(text: &[u8], at: usize, start: usize, end: usize) -> Step
    ensures { parsed_of nothing result ≡ phrase text.now (no_change_opening (part text.now start end)) at }
{
    let a = formula_closing(text, at)?;
    let b = expect_name(text, a.at, start, end)?;
    let c = rule_opening(text, b.at)?;
    let d = own_values(text, c.at, start, end, lexer::EQUALS)?;
    three_signs(text, d.at, lexer::ARROW, lexer::TILDE, lexer::OPEN_ROUND)
}

// `w > _w ->`, and `w < _w ->`: the sign is of a kind.
fn turned_value(text: &[u8], at: usize, start: usize, end: usize, kind: u32) -> Step
    requires { kind ≤ last_kind }
    ensures { parsed_of nothing result ≡ phrase text.now (turned_value (kind_of kind) (part text.now start end)) at }
{
    let a = own_values(text, at, start, end, kind)?;
    expect(text, a.at, lexer::ARROW)
}

// A formula of a pair after `w +` or `w -`: `: GX ( w > _w ->`.
pub fn turned_opening(text: &[u8], at: usize, start: usize, end: usize, kind: u32) -> Step
    requires { kind ≤ last_kind }
    ensures { parsed_of nothing result ≡ phrase text.now (turned_opening (kind_of kind) (part text.now start end)) at }
{
    let a = rule_opening(text, at)?;
    turned_value(text, a.at, start, end, kind)
}

// The end of a rising formula, and its falling formula up to the cases: `) ; w - : GX ( w < _w ->`.
pub fn falling_opening(text: &[u8], at: usize, start: usize, end: usize) -> Step
    ensures { parsed_of nothing result ≡ phrase text.now (falling_opening (part text.now start end)) at }
{
    let a = formula_closing(text, at)?;
    let b = expect_name(text, a.at, start, end)?;
    let c = expect(text, b.at, lexer::MINUS)?;
    turned_opening(text, c.at, start, end, lexer::LESS)
}

// After `watch`: `: G ( [`.
pub fn watch_opening(text: &[u8], at: usize) -> Step
    ensures { parsed_of nothing result ≡ phrase text.now watch_opening at }
{
    let a = expect(text, at, lexer::COLON)?;
    three_signs(
        text,
        a.at,
        lexer::ALWAYS,
        lexer::OPEN_ROUND,
        lexer::OPEN_SQUARE,
    )
}

// After the `->` of a watch: `X ( [`.
pub fn later_opening(text: &[u8], at: usize) -> Step
    ensures { parsed_of nothing result ≡ phrase text.now later_opening at }
{
    let a = expect(text, at, lexer::AFTER)?;
    two_signs(text, a.at, lexer::OPEN_ROUND, lexer::OPEN_SQUARE)
}
