// Rows from lines and decimal printing: what the program `trace` needs that is no service. Standard input and its lines have no
// limit, so what is read is a state carried from byte to byte.
#![tactic(auto)]

ghost use Rattle.std.specs.Prelude.{◌≡◌, true, ◌+◌, ◌≤◌, drop, set};
ghost use Rattle.std.proofs.lemmas.List.Edits.{sets};
ghost use Rattle.trace_text.specs.Row.{long_row};
ghost use Rattle.trace_text.specs.Output.{Put};
ghost use Rattle.trace_text.specs.Inner.Stages.{text_stage, stage_after, text_after, stage_over, text_over, is_rows, bytes_before, longer_by, digit_after, number_begins, signed as signed_of, in_word32, counts, cells_end, line_after, cells_after, count_of, cells_of, is_begun};

use lexer::classes;

pub mod print;

// The length of a row that no image has.
pub const LONG_ROW: usize = 65;

// ---- the text and the rows

// Where the splitting of standard input has come to.
#[derive(Clone, Copy)]
pub enum Stage {
    // In the text, at the start of a line.
    LineStart,
    // In a line of the text.
    InLine,
    // `#` began a line of the text; it is held back.
    Hash,
    // Past the line `#`.
    Rows,
}

// The stage, and how many bytes of the text are stored.
#[derive(Clone, Copy)]
pub struct Split {
    pub stage: Stage,
    pub length: usize,
}

// The splitter behind a chunk, and the place where the rows begin (the chunk's end where none does).
#[derive(Clone, Copy)]
pub struct Divided {
    pub split: Split,
    pub rows: usize,
}

pub fn is_rows(stage: Stage) -> bool
    ensures { result ≡ is_rows stage }
{
    match stage {
        Stage::LineStart => false,
        Stage::InLine => false,
        Stage::Hash => false,
        Stage::Rows => true,
    }
}

fn text_stage(b: u8) -> Stage
    ensures { result ≡ text_stage b }
{
    if b == 10 {
        return Stage::LineStart;
    }
    Stage::InLine
}

// The stage behind one byte of standard input.
fn stage_after(stage: Stage, b: u8) -> Stage
    ensures { result ≡ stage_after stage b }
{
    match stage {
        Stage::LineStart => {
            if b == 35 {
                return Stage::Hash;
            }
            text_stage(b)
        }
        Stage::InLine => text_stage(b),
        Stage::Hash => {
            if b == 10 {
                return Stage::Rows;
            }
            Stage::InLine
        }
        Stage::Rows => Stage::Rows,
    }
}

// What one byte of standard input adds to the text, as far as there is room; the place behind it.
fn put_text(text: &mut [u8], at: usize, stage: Stage, b: u8) -> usize
    ensures { Put text.old at (text_after stage b) text.new result }
{
    match stage {
        Stage::LineStart => {
            if b == 35 {
                return at.min(text.len());
            }
            print::put_byte(text, at, b)
        }
        Stage::InLine => print::put_byte(text, at, b),
        Stage::Hash => {
            if b == 10 {
                return at.min(text.len());
            }
            let next = print::put_byte(text, at, 35);
            print::put_byte(text, next, b)
        }
        Stage::Rows => at.min(text.len()),
    }
}

// The bytes of a chunk from a place on, as far as the rows.
pub fn split_chunk(text: &mut [u8], s: Split, chunk: &[u8], from: usize) -> Divided
    ensures stage_value { result.split.stage ≡ stage_over s.stage (drop from chunk.now) }
    ensures put { Put text.old s.length (text_over s.stage (drop from chunk.now)) text.new result.split.length }
    ensures rows_value { result.rows ≡ from + bytes_before s.stage (drop from chunk.now) }
{
    let mut stage = s.stage;
    let mut place = s.length.min(text.len());
    for i in from..chunk.len() {
        if is_rows(stage) {
            let split = Split {
                stage: stage,
                length: place,
            };
            return Divided {
                split: split,
                rows: i,
            };
        }
        let b = chunk[i];
        place = put_text(text, place, stage, b);
        stage = stage_after(stage, b);
    }
    let split = Split {
        stage: stage,
        length: place,
    };
    Divided {
        split: split,
        rows: from.max(chunk.len()),
    }
}

// ---- the row of a line

// Where the reading of a line has come to, with the count of its numbers so far.
#[derive(Clone, Copy)]
pub enum Line {
    // No byte yet.
    Start,
    // A number must begin.
    Wanted(usize),
    // A digit must follow `-`.
    Minus(usize),
    // In a number: whether it is negative, and its digits' value so far.
    Number(usize, bool, u64),
    // No row, or one of over 64 numbers.
    NoRow,
}

// A byte of the line was read: at the end of the input such a line is a row, and an empty one is no line.
pub fn is_begun(s: Line) -> bool
    ensures { result ≡ is_begun s }
{
    match s {
        Line::Start => false,
        Line::Wanted(_) => true,
        Line::Minus(_) => true,
        Line::Number(_, _, _) => true,
        Line::NoRow => true,
    }
}

// A number with one digit more; one that is too large for 32 bits whatever follows makes the line no row.
fn longer(n: usize, negative: bool, v: u64, d: u64) -> Line
    requires { d ≤ 9 }
    ensures { result ≡ longer_by n negative v d }
{
    match v {
        0..=214748364 => Line::Number(n, negative, 10 * v + d),
        _ => Line::NoRow,
    }
}

fn digit(n: usize, negative: bool, v: u64, b: u8) -> Line
    ensures { result ≡ digit_after n negative v b }
{
    if !classes::is_digit(b) {
        return Line::NoRow;
    }
    longer(n, negative, v, u64::from(b) % 16)
}

fn begin(n: usize, b: u8) -> Line
    ensures { result ≡ number_begins n b }
{
    match b {
        45 => Line::Minus(n),
        _ => digit(n, false, 0, b),
    }
}

fn in_range(negative: bool, v: u64) -> bool
    ensures { result ≡ in_word32 negative v }
{
    if negative {
        return v <= 2147483648;
    }
    v <= 2147483647
}

fn signed(negative: bool, v: u64) -> i32
    requires { in_word32 negative v ≡ true }
    ensures { result ≡ signed_of negative v }
{
    if v == 0 {
        return 0;
    }
    if negative {
        let before = (v - 1) as i32;
        return -1 - before;
    }
    v as i32
}

// One number, where there is room for it.
fn store(cells: &mut [i32], at: usize, z: i32)
    ensures { cells.new ≡ set cells.old at z }
{
    if at < cells.len() {
        cells[at] = z;
    }
}

// The n + 1st number of the line is whole: it is stored where it counts.
fn end_number(cells: &mut [i32], n: usize, negative: bool, v: u64) -> bool
    ensures { (result ≡ counts n negative v) × (cells.new ≡ cells_end n negative v cells.old) }
{
    if in_range(negative, v) {
        if n < limits::NAME_LIMIT {
            store(cells, n, signed(negative, v));
            return true;
        }
    }
    false
}

fn number_byte(cells: &mut [i32], n: usize, negative: bool, v: u64, b: u8) -> Line
    ensures { (result ≡ line_after (Line.Number n negative v) b) × (cells.new ≡ cells_after (Line.Number n negative v) cells.old b) }
{
    if b == 32 {
        if end_number(cells, n, negative, v) {
            return Line::Wanted(n + 1);
        }
        return Line::NoRow;
    }
    digit(n, negative, v, b)
}

// One byte of a line. Numbers are stored where they end.
pub fn line_byte(cells: &mut [i32], s: Line, b: u8) -> Line
    ensures { (result ≡ line_after s b) × (cells.new ≡ cells_after s cells.old b) }
{
    match s {
        Line::Start => begin(0, b),
        Line::Wanted(n) => begin(n, b),
        Line::Minus(n) => digit(n, true, 0, b),
        Line::Number(n, negative, v) => number_byte(cells, n, negative, v, b),
        Line::NoRow => Line::NoRow,
    }
}

// A row of a length that no image has.
fn put_long_row(cells: &mut [i32]) -> usize
    ensures { (result ≡ 65) × (cells.new ≡ sets cells.old 0 long_row) }
{
    let count = LONG_ROW.min(cells.len());
    cells[..count].fill(0);
    LONG_ROW
}

// The line has ended: how many of the cells, from the first on, are the row for scan.
pub fn line_end(cells: &mut [i32], s: Line) -> usize
    ensures { (result ≡ count_of s) × (cells.new ≡ cells_of s cells.old) }
{
    match s {
        Line::Start => 0,
        Line::Number(n, negative, v) => {
            if end_number(cells, n, negative, v) {
                return n + 1;
            }
            put_long_row(cells)
        }
        Line::Wanted(_) => put_long_row(cells),
        Line::Minus(_) => put_long_row(cells),
        Line::NoRow => put_long_row(cells),
    }
}
