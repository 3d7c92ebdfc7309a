// The words of the grammar.
ghost use Rattle.std.specs.Prelude.{◌≡◌};
ghost use Rattle.lexer.specs.Token.{kind_number};
ghost use Rattle.lexer.specs.Lexer.{grammar_word, exact_word, word_of};

use crate::classes;

// A word of the grammar, in its own case or another: of as many bytes as there are.
fn grammar_word(w: &[u8]) -> bool
    ensures { result ≡ grammar_word w.now }
{
    let bytes = w.len();
    if bytes == 5 {
        if crate::same_name(w, b"input") {
            return true;
        }
        if crate::same_name(w, b"watch") {
            return true;
        }
        if crate::same_name(w, b"timer") {
            return true;
        }
        return crate::same_name(w, b"limit");
    }
    if bytes == 3 {
        if crate::same_name(w, b"var") {
            return true;
        }
        return crate::same_name(w, b"mod");
    }
    if bytes == 1 {
        if crate::same_name(w, b"G") {
            return true;
        }
        return crate::same_name(w, b"X");
    }
    if bytes == 2 {
        if crate::same_name(w, b"GX") {
            return true;
        }
        return crate::same_name(w, b"of");
    }
    if bytes == 4 {
        return crate::same_name(w, b"init");
    }
    false
}

// Which one: the bytes count.
fn exact_word(w: &[u8]) -> u32
    ensures { result ≡ kind_number (exact_word w.now) }
{
    if classes::same_bytes(w, b"input") {
        return crate::INPUT;
    }
    if classes::same_bytes(w, b"var") {
        return crate::VAR;
    }
    if classes::same_bytes(w, b"init") {
        return crate::INIT;
    }
    if classes::same_bytes(w, b"mod") {
        return crate::MOD;
    }
    if classes::same_bytes(w, b"GX") {
        return crate::GX;
    }
    if classes::same_bytes(w, b"watch") {
        return crate::WATCH;
    }
    if classes::same_bytes(w, b"G") {
        return crate::ALWAYS;
    }
    if classes::same_bytes(w, b"X") {
        return crate::AFTER;
    }
    if classes::same_bytes(w, b"timer") {
        return crate::TIMER;
    }
    if classes::same_bytes(w, b"of") {
        return crate::OF;
    }
    if classes::same_bytes(w, b"limit") {
        return crate::LIMIT;
    }
    crate::OTHER_CASE
}

// The kind of a run of letters and digits that begins with a letter.
pub fn word(w: &[u8]) -> u32
    ensures { result ≡ kind_number (word_of w.now) }
{
    if grammar_word(w) {
        return exact_word(w);
    }
    crate::NAME
}
