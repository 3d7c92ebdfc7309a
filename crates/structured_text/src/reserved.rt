// Refusal 21: whether a program has a timer or a name that is a word of Structured Text, and where the first of them stands.
ghost use Rattle.std.specs.Prelude.{◌≡◌, ◌&&◌, List, ◌≤◌, length};
ghost use Rattle.lexer.specs.Bytes.{part};
ghost use Rattle.lexer.specs.Token.{last_kind};
ghost use Rattle.lexer.specs.Results.{kind_of};
ghost use Rattle.lexer.specs.Names.{table_names, Table};
ghost use Rattle.semantics.specs.Program.{Timer};
ghost use Rattle.st_program.specs.Written.{is_st_word, none_st_word, no_timer};
ghost use Rattle.structured_text.specs.Services.{declares_name, is_outside, reserved_place};

use lexer::Step;

const ST_WORDS: [&[u8]; 7] = [b"IF", b"THEN", b"ELSIF", b"DINT", b"AND", b"OR", b"NOT"];

// In any letter case.
fn is_st_word(w: &[u8]) -> bool
    ensures { result ≡ is_st_word w.now }
{
    ST_WORDS.iter().any(|word| lexer::same_name(w, word))
}

// Whether there is no timer and none of the names that the table holds is such a word.
pub fn has_st(text: &[u8], starts: &[usize], ends: &[usize], count: usize, timers: usize) -> bool
    requires { Table starts.now ends.now count }
    ensures { (ts : List Timer) → timers ≡ length ts
        → result ≡ (no_timer ts && none_st_word (table_names text.now starts.now ends.now count)) }
{
    if timers != 0 {
        return false;
    }
    for i in 0..count {
        if is_st_word(lexer::name(text, starts[i], ends[i])) {
            return false;
        }
    }
    true
}

// Whether a declared name stands behind a token of this kind.
fn declares_name(kind: u32) -> bool
    requires { kind ≤ last_kind }
    ensures { result ≡ declares_name (kind_of kind) }
{
    if kind == lexer::INPUT {
        return true;
    }
    kind == lexer::VAR
}

// The token of this kind from `start` to `end`: `named` says whether it is a declared name.
fn is_outside(text: &[u8], named: bool, kind: u32, start: usize, end: usize) -> bool
    requires { kind ≤ last_kind }
    ensures { result ≡ is_outside (kind_of kind) named (part text.now start end) }
{
    if kind == lexer::TIMER {
        return true;
    }
    if named {
        return is_st_word(lexer::name(text, start, end));
    }
    false
}

// The place of the first declared name that is such a word, or of the first `timer`; 0 where there is none.
pub fn reserved_place(text: &[u8]) -> usize
    ensures { result ≡ reserved_place text.now }
{
    let mut at = 0;
    let mut named = false;
    // a `loop`: the place moves on by a token's length, which is known when it is read
    loop {
        let read = lexer::token_at(text, at);
        let Ok(token) = read else {
            return 0;
        };
        if token.kind == lexer::END {
            return 0;
        }
        if is_outside(text, named, token.kind, token.start, token.end) {
            return token.start;
        }
        named = declares_name(token.kind);
        at = token.end;
    }
}
