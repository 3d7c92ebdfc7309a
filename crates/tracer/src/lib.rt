// The trace program without its input and output: it is fed standard input in parts, and puts out the bytes to print.
#![tactic(auto)]

ghost use Rattle.std.specs.Prelude.{◌≤◌, ◌≡◌, false, List, ℤ, length, take};
ghost use Rattle.limits.specs.Limits.{state_limit};
ghost use Rattle.limits.specs.Answer.{accepted};
ghost use Rattle.declarations.specs.Inner.Tables.{TableRoom};
ghost use Rattle.semantics.specs.Program.{Program};
ghost use Rattle.grammar.specs.Parse.{program_of};
ghost use Rattle.trace_text.specs.Inner.Stages.{is_rows};
ghost use Rattle.tracer.specs.Session.{Session, text_room, line_room, session_of, at_end};
ghost use Rattle.tracer.specs.Inner.Contracts.{Memory, AcceptedText, Begins, Opens, Takes};

use trace_text::{Line, Split, Stage};

mod rows;

// One byte more than a text may have, so that a longer one is refused.
pub const TEXT_ROOM: usize = 32769;

pub const OUTPUT_ROOM: usize = 65536;

// Where the program stands between two parts of its input.
#[derive(Clone, Copy)]
pub enum Tracer {
    // In the text: how many of its bytes are stored. With the stage `Rows`, the text was refused.
    Text(Stage, usize),
    // In the rows: the length of the image, the count of names, the length of the state, the line begun, and the number of the last row.
    Rows(usize, usize, usize, Line, u64),
}

// The bytes taken of a part, and the end of the bytes put out.
#[derive(Clone, Copy)]
pub struct Fed {
    pub tracer: Tracer,
    pub taken: usize,
    pub put: usize,
}

// Behind the text, with the end of the bytes put out.
#[derive(Clone, Copy)]
struct Opened {
    tracer: Tracer,
    put: usize,
}

// An accepted text: its image, the start, and their lines put out. Elapsed times stand in the state, but are not printed.
fn begin_trace(
    text: &[u8],
    image: &mut [u8],
    state: &mut [i32],
    starts: &[usize],
    ends: &[usize],
    size: usize,
    names: usize,
    out: &mut [u8],
) -> usize
    requires accepted_text { AcceptedText text.now starts.now ends.now size names (length state.old) }
    requires in_bounds { (49154 ≤ length image.old) × (line_room ≤ length out.old) }
    ensures begins { (p : Program) → program_of text.now ≡ accepted p → Begins (take size image.new) state.new (take result out.new) p }
    ensures upper_bound { result ≤ length out.new }
{
    let _ = translate::translate(text, image);
    let at = trace_text::print::put_head(out, 0, text, starts, ends, names);
    // no refusal: the image of an accepted text, and a state of its length
    let _ = scan::start(&image[..size], state);
    trace_text::print::put_row(out, at, 0, &state[..names], 0)
}

// The text is whole: its refusal, or its trace so far, put out.
fn open_in(
    text: &[u8],
    image: &mut [u8],
    state: &mut [i32],
    starts: &mut [usize],
    ends: &mut [usize],
    out: &mut [u8],
) -> Opened
    requires table_room { TableRoom starts.old ends.old 0 }
    requires in_bounds { (49154 ≤ length image.old) × (length state.old ≡ state_limit) × (line_room ≤ length out.old) }
    ensures { Opens text.now image.new state.new out.new result.tracer result.put }
{
    match translate::analyse(text, starts, ends) {
        Err(refusal) => {
            let put = trace_text::print::put_refused(
                out,
                0,
                u64::from(refusal.number()),
                refusal.place() as u64,
            );
            Opened {
                tracer: Tracer::Text(Stage::Rows, 0),
                put,
            }
        }
        Ok(analysis) => {
            let size = analysis.length;
            let names = analysis.names;
            let width = names + analysis.timers;
            let put = begin_trace(
                text,
                image,
                &mut state[..width],
                starts,
                ends,
                size,
                names,
                out,
            );
            Opened {
                tracer: Tracer::Rows(size, names, width, Line::Start, 0),
                put,
            }
        }
    }
}

fn open_trace(text: &[u8], image: &mut [u8], state: &mut [i32], out: &mut [u8]) -> Opened
    requires { (49154 ≤ length image.old) × (length state.old ≡ state_limit) × (line_room ≤ length out.old) }
    ensures { Opens text.now image.new state.new out.new result.tracer result.put }
{
    let mut starts = [0usize; limits::NAME_LIMIT];
    let mut ends = [0usize; limits::NAME_LIMIT];
    open_in(text, image, state, &mut starts, &mut ends, out)
}

// The bytes of a part that lie in the text, as far as the rows; behind the line `#` the trace is begun.
fn feed_text(
    text: &mut [u8],
    image: &mut [u8],
    state: &mut [i32],
    stage: Stage,
    stored: usize,
    part: &[u8],
    out: &mut [u8],
) -> Fed
    requires stored_in_bounds { (stored ≤ length text.old) × (length text.old ≡ text_room) × (is_rows stage ≡ false) }
    requires in_bounds { (49154 ≤ length image.old) × (length state.old ≡ state_limit) × (line_room ≤ length out.old) }
    ensures { (cells : List ℤ) → Takes (length out.old) (Session.in_text stage (take stored text.old) cells) part.now result.taken
        (session_of result.tracer text.new image.new state.new cells) out.new result.put }
{
    let split = Split {
        stage,
        length: stored,
    };
    let divided = trace_text::split_chunk(text, split, part, 0);
    let found = divided.split;
    let reached = found.stage;
    let end = found.length;
    if !trace_text::is_rows(reached) {
        return Fed {
            tracer: Tracer::Text(reached, end),
            taken: divided.rows,
            put: 0,
        };
    }
    let opened = open_trace(&text[..end], image, state, out);
    let tracer = opened.tracer;
    Fed {
        tracer,
        taken: divided.rows,
        put: opened.put,
    }
}

fn feed_in(
    text: &mut [u8],
    image: &mut [u8],
    state: &mut [i32],
    cells: &mut [i32],
    tracer: Tracer,
    part: &[u8],
    out: &mut [u8],
) -> Fed
    requires { Memory text.old image.old state.old cells.old × (line_room ≤ length out.old) }
    ensures { Takes (length out.old) (session_of tracer text.old image.old state.old cells.old) part.now result.taken
        (session_of result.tracer text.new image.new state.new cells.new) out.new result.put }
{
    match tracer {
        Tracer::Text(stage, stored) => {
            if trace_text::is_rows(stage) {
                return Fed {
                    tracer: Tracer::Text(stage, stored),
                    taken: part.len(),
                    put: 0,
                };
            }
            let n = stored.min(text.len());
            feed_text(text, image, state, stage, n, part, out)
        }
        Tracer::Rows(size, names, width, line, number) => {
            let end = size.min(image.len());
            let n = width.min(state.len());
            let fed = rows::feed_rows(
                &image[..end],
                &mut state[..n],
                names,
                cells,
                line,
                number,
                part,
                out,
            );
            let begun = fed.line;
            Fed {
                tracer: Tracer::Rows(end, names, n, begun, fed.number),
                taken: fed.taken,
                put: fed.put,
            }
        }
    }
}

fn finish_in(
    text: &[u8],
    image: &mut [u8],
    state: &mut [i32],
    cells: &mut [i32],
    tracer: Tracer,
    out: &mut [u8],
) -> usize
    requires { Memory text.now image.old state.old cells.old × (line_room ≤ length out.old) }
    ensures out_after { take result out.new ≡ at_end (session_of tracer text.now image.old state.old cells.old) }
    ensures upper_bound { result ≤ length out.new }
{
    match tracer {
        Tracer::Text(stage, stored) => {
            if trace_text::is_rows(stage) {
                return 0;
            }
            let n = stored.min(text.len());
            let opened = open_trace(&text[..n], image, state, out);
            opened.put
        }
        Tracer::Rows(size, names, width, line, number) => {
            if !trace_text::is_begun(line) {
                return 0;
            }
            let end = size.min(image.len());
            let n = width.min(state.len());
            let next = rows::next_number(number);
            rows::trace_row(
                &image[..end],
                &mut state[..n],
                names,
                cells,
                line,
                next,
                out,
                0,
            )
        }
    }
}

// Before the first byte.
pub fn begin() -> Tracer
    ensures { result ≡ Tracer.Text Stage.LineStart 0 }
{
    Tracer::Text(Stage::LineStart, 0)
}

// The next bytes of the input. Where the buffer might not have room for another line, the rest of the part is left for the next call.
pub fn feed(
    text: &mut [u8; TEXT_ROOM],
    image: &mut [u8; limits::IMAGE_ROOM],
    state: &mut [i32; limits::STATE_LIMIT],
    cells: &mut [i32; trace_text::LONG_ROW],
    tracer: Tracer,
    part: &[u8],
    out: &mut [u8; OUTPUT_ROOM],
) -> Fed
    ensures { Takes (length out.old) (session_of tracer text.old image.old state.old cells.old) part.now result.taken
        (session_of result.tracer text.new image.new state.new cells.new) out.new result.put }
{
    feed_in(text, image, state, cells, tracer, part, out)
}

// The input has ended: the end of the bytes put out.
pub fn finish(
    text: &[u8; TEXT_ROOM],
    image: &mut [u8; limits::IMAGE_ROOM],
    state: &mut [i32; limits::STATE_LIMIT],
    cells: &mut [i32; trace_text::LONG_ROW],
    tracer: Tracer,
    out: &mut [u8; OUTPUT_ROOM],
) -> usize
    ensures out_after { take result out.new ≡ at_end (session_of tracer text.now image.old state.old cells.old) }
    ensures upper_bound { result ≤ length out.new }
{
    finish_in(text, image, state, cells, tracer, out)
}
