// The rows: one byte, a line that has ended, and as much of a part as there is room to print for.
ghost use Rattle.std.specs.Prelude.{◌+◌, ◌≤◌, ◌≡◌, length};
ghost use Rattle.limits.specs.Limits.{state_limit};
ghost use Rattle.scan.specs.Services.{scan_of};
ghost use Rattle.scan.specs.Results.{scan_answer};
ghost use Rattle.correctness.specs.TraceCorrect.{verdict_of};
ghost use Rattle.trace_text.specs.Inner.Stages.{handed_row, cells_of};
ghost use Rattle.tracer.specs.Printed.{refusal_of};
ghost use Rattle.tracer.specs.Session.{Session, line_room, next_number, scan_line, after, put_by};
ghost use Rattle.tracer.specs.Inner.Contracts.{PutWhole, Takes};

use scan::Scanned;
use trace_text::Line;

// Room for a line, and for the head with the start's line.
const LINE_ROOM: usize = 2048;

// Behind a byte of the rows, with the end of the bytes put out.
#[derive(Clone, Copy)]
pub struct Traced {
    pub line: Line,
    pub number: u64,
    pub put: usize,
}

// The same behind a part of them.
#[derive(Clone, Copy)]
pub struct FedRows {
    pub line: Line,
    pub number: u64,
    pub taken: usize,
    pub put: usize,
}

fn scan_number(r: Scanned) -> u64
    ensures { result ≡ refusal_of (verdict_of (scan_answer r)) }
{
    match r {
        Scanned::Done(_) => 0,
        Scanned::Refused(number, _, _) => u64::from(number),
    }
}

// Every line is a row, and counts.
pub fn next_number(number: u64) -> u64
    ensures { result ≡ next_number number }
{
    number.saturating_add(1)
}

// A line that has ended: its row is scanned, and the values of the names in the state it leaves printed, not the elapsed times.
pub fn trace_row(
    image: &[u8],
    state: &mut [i32],
    names: usize,
    cells: &mut [i32],
    line: Line,
    number: u64,
    out: &mut [u8],
    at: usize,
) -> usize
    requires { (65 ≤ length cells.old) × (length state.old ≤ state_limit) × (at + line_room ≤ length out.old) }
    ensures state_after { state.new ≡ (scan_of image.now state.old (handed_row line cells.old)).state }
    ensures cells_after { cells.new ≡ cells_of line cells.old }
    ensures put_whole { PutWhole out.old at (scan_line names number (scan_of image.now state.old (handed_row line cells.old))) out.new result }
{
    let count = trace_text::line_end(cells, line);
    let scanned = scan::scan(image, state, &cells[..count]);
    let shown = names.min(state.len());
    trace_text::print::put_row(out, at, number, &state[..shown], scan_number(scanned))
}

// One byte of the rows.
fn trace_byte(
    image: &[u8],
    state: &mut [i32],
    names: usize,
    cells: &mut [i32],
    line: Line,
    number: u64,
    b: u8,
    out: &mut [u8],
    at: usize,
) -> Traced
    requires { (65 ≤ length cells.old) × (length state.old ≤ state_limit) × (at + line_room ≤ length out.old) }
    ensures number_after { Session.in_rows image.now names state.new result.line cells.new result.number
        ≡ after (Session.in_rows image.now names state.old line cells.old number) b }
    ensures put_whole { PutWhole out.old at (put_by (Session.in_rows image.now names state.old line cells.old number) b) out.new result.put }
{
    if b != 10 {
        let more = trace_text::line_byte(cells, line, b);
        return Traced {
            line: more,
            number,
            put: at,
        };
    }
    let next = next_number(number);
    let put = trace_row(image, state, names, cells, line, next, out, at);
    Traced {
        line: Line::Start,
        number: next,
        put,
    }
}

// The bytes of a part that lie in the rows, as far as there is room for another line.
pub fn feed_rows(
    image: &[u8],
    state: &mut [i32],
    names: usize,
    cells: &mut [i32],
    begun: Line,
    last: u64,
    part: &[u8],
    out: &mut [u8],
) -> FedRows
    requires { (65 ≤ length cells.old) × (length state.old ≤ state_limit) × (line_room ≤ length out.old) }
    ensures { Takes (length out.old)
        (Session.in_rows image.now names state.old begun cells.old last) part.now result.taken
        (Session.in_rows image.now names state.new result.line cells.new result.number) out.new result.put }
{
    let mut line = begun;
    let mut number = last;
    let mut put = 0;
    for (taken, b) in part.iter().enumerate() {
        if out.len() - put < LINE_ROOM {
            return FedRows {
                line,
                number,
                taken,
                put,
            };
        }
        let traced = trace_byte(image, state, names, cells, line, number, *b, out, put);
        line = traced.line;
        number = traced.number;
        put = traced.put;
    }
    FedRows {
        line,
        number,
        taken: part.len(),
        put,
    }
}
