// Structured Text put directly before a place, right to left, as far as there is room: bytes, numbers and names here; the rules of a program
// from their mirrored code in `operands` and `statements`.
#![tactic(auto)]

ghost use Rattle.std.specs.Prelude.{◌≡◌, List, [], ◌∷◌, ◌++◌, ℕ, ◌≤◌, length, get_or, take};
ghost use Rattle.semantics.specs.Program.{Program};
ghost use Rattle.bytecode.specs.Instructions.{encode_all};
ghost use Rattle.bytecode.specs.Translation.{Translatable, code_rules};
ghost use Rattle.lexer.specs.Names.{table_names, Table};
ghost use Rattle.trace_text.specs.Output.{unsigned_decimal};
ghost use Rattle.st_writer.specs.Inner.Fronts.{openings, Fronts, sign_bytes};
ghost use Rattle.st_writer.specs.Inner.Mirrored.{mirrored};

pub mod operands;
pub mod statements;

// Where the code that was read ends, and where its print begins.
#[derive(Clone, Copy)]
pub struct Stretch {
    pub next: usize,
    pub to: usize,
}

// One byte before `to`, where there is room for it; the place of that byte.
pub fn byte_before(out: &mut [u8], to: usize, b: u8) -> usize
    ensures { Fronts (λ (l : List ℕ). b ∷ l) out.old out.new to result }
{
    if to == 0 {
        return 0;
    }
    let first = to - 1;
    if first < out.len() {
        out[first] = b;
    }
    first
}

pub fn bytes_before(out: &mut [u8], to: usize, word: &[u8]) -> usize
    ensures { Fronts (λ (l : List ℕ). word.now ++ l) out.old out.new to result }
{
    let mut place = to;
    for b in word.iter().rev() {
        place = byte_before(out, place, *b);
    }
    place
}

// As many opening brackets before `to`.
pub fn opens_before(out: &mut [u8], to: usize, n: usize) -> usize
    ensures { Fronts (openings n) out.old out.new to result }
{
    let mut place = to;
    for _ in 0..n {
        place = byte_before(out, place, 40);
    }
    place
}

// The shortest decimal.
pub fn decimal_before(out: &mut [u8], to: usize, n: u64) -> usize
    ensures { Fronts (λ (l : List ℕ). unsigned_decimal n ++ l) out.old out.new to result }
{
    if n < 10 {
        return byte_before(out, to, (48 + n) as u8);
    }
    let last = byte_before(out, to, (48 + n % 10) as u8);
    decimal_before(out, last, n / 10)
}

// A name of the table, as declared; of an id that is not there, nothing.
pub fn name_before(
    out: &mut [u8],
    to: usize,
    text: &[u8],
    starts: &[usize],
    ends: &[usize],
    count: usize,
    id: usize,
) -> usize
    requires { Table starts.now ends.now count }
    ensures { Fronts (λ (l : List ℕ). get_or (table_names text.now starts.now ends.now count) id [] ++ l)
        out.old out.new to result }
{
    if count <= id {
        return to;
    }
    let start = starts[id];
    let end = ends[id];
    bytes_before(out, to, lexer::name(text, start, end))
}

// The sign of an operation of two operands, a space on each side.
pub fn sign_before(out: &mut [u8], to: usize, op: u8) -> usize
    ensures { Fronts (λ (l : List ℕ). sign_bytes op ++ l) out.old out.new to result }
{
    match op {
        4 => bytes_before(out, to, b" + "),
        5 => bytes_before(out, to, b" - "),
        6 => bytes_before(out, to, b" * "),
        7 => bytes_before(out, to, b" / "),
        8 => bytes_before(out, to, b" MOD "),
        10 => bytes_before(out, to, b" = "),
        11 => bytes_before(out, to, b" <> "),
        12 => bytes_before(out, to, b" < "),
        13 => bytes_before(out, to, b" <= "),
        14 => bytes_before(out, to, b" > "),
        15 => bytes_before(out, to, b" >= "),
        17 => bytes_before(out, to, b" AND "),
        _ => bytes_before(out, to, b" OR "),
    }
}

// Code mirrored: its instructions in reverse order, so that an operation comes before its operands.
pub fn mirror(code: &[u8], out: &mut [u8])
    requires { length code.now ≤ length out.old }
    ensures { (p : Program) → Translatable p → p.timers ≡ [] → code.now ≡ encode_all (code_rules [] p.rules)
        → take (length code.now) out.new ≡ mirrored (code_rules [] p.rules) [] }
{
    let mut at: usize = 0;
    let mut to = code.len();
    // a `while`: the place moves on by an instruction's length, which is known when it is read
    while at < code.len() {
        match bytecode::fetch(code, at) {
            Some(bytecode::Fetched::Instruction(_, _, next)) => {
                to = bytes_before(out, to, &code[at..next]);
                at = next;
            }
            Some(bytecode::Fetched::Timer(_, _, _, _)) => {
                return;
            }
            None => {
                return;
            }
        }
    }
}
