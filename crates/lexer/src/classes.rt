// Classes of bytes, the runs that they make, and bytes compared.
ghost use Rattle.std.specs.Prelude.{◌≡◌, get_or, eqb};
ghost use Rattle.lexer.specs.Bytes.{same_bytes, capital};
ghost use Rattle.lexer.specs.Lexer.{is_space, is_digit, is_letter, run_end, same_name};
ghost use Rattle.lexer.specs.Inner.Classes.{member};

// A class of bytes that makes runs.
#[derive(Clone, Copy)]
pub enum Class {
    Space,
    Digit,
    Alphanumeric,
}

impl Class {
    fn has(self, b: u8) -> bool
        ensures { result ≡ member self b }
    {
        match self {
            Class::Space => is_space(b),
            Class::Digit => is_digit(b),
            Class::Alphanumeric => is_letter(b) || is_digit(b),
        }
    }
}

#[tactic(auto, using(std::proofs::lemmas::Bool::Decides::nat_tests), unfolding(crate::specs::Lexer::is_space))]
fn is_space(b: u8) -> bool
    ensures { result ≡ is_space b }
{
    matches!(b, b' ' | b'\t' | b'\n' | b'\r')
}

#[tactic(auto, using(std::proofs::lemmas::Bool::Decides::nat_tests), unfolding(crate::specs::Lexer::is_digit))]
pub fn is_digit(b: u8) -> bool
    ensures { result ≡ is_digit b }
{
    b.is_ascii_digit()
}

#[tactic(auto, using(std::proofs::lemmas::Bool::Decides::nat_tests), unfolding(crate::specs::Lexer::is_letter))]
pub fn is_letter(b: u8) -> bool
    ensures { result ≡ is_letter b }
{
    b.is_ascii_alphabetic()
}

// The end of the run of bytes of a class from `at`.
pub fn run(text: &[u8], at: usize, class: Class) -> usize
    ensures { result ≡ run_end (member class) text.now at }
{
    for i in at..text.len() {
        if !class.has(text[i]) {
            return i;
        }
    }
    at.max(text.len())
}

pub fn byte_at(text: &[u8], at: usize) -> u8
    ensures { result ≡ get_or text.now at 0 }
{
    text.get(at).copied().unwrap_or(0)
}

// `==`, with the definition that its callers cite.
pub fn same_bytes(a: &[u8], b: &[u8]) -> bool
    ensures { result ≡ same_bytes a.now b.now }
{
    a == b
}

// The same byte, or one letter in both cases: a small letter is 32 behind its capital, and 224 is 32 before. One difference tells most names apart.
#[tactic(auto, using(std::proofs::lemmas::Bool::Decides::nat_tests), unfolding(crate::specs::Bytes::capital))]
fn same_letter(x: u8, y: u8) -> bool
    ensures { result ≡ eqb (capital x) (capital y) }
{
    match x.wrapping_sub(y) {
        0 => true,
        32 => y.is_ascii_uppercase(),
        224 => x.is_ascii_uppercase(),
        _ => false,
    }
}

// From the last byte back: names that are numbered differ there.
pub fn same_capitals(a: &[u8], b: &[u8]) -> bool
    ensures { result ≡ same_name a.now b.now }
{
    if a.len() != b.len() {
        return false;
    }
    for i in (0..a.len()).rev() {
        if !same_letter(a[i], b[i]) {
            return false;
        }
    }
    true
}
