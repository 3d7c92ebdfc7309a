// The trace program: standard input holds a text, the line `#`, then one row a line; standard output gets the trace. What is printed
// is the work of `tracer`; this only reads, writes and tells a failure.
#![tactic(auto)]

ghost use Rattle.std.specs.Prelude.{◌≤◌, ◌≡◌, true, length, take, IfOk, OnOk, IfSome};
ghost use Rattle.std.specs.Io.KnownBytes.{Appends, Consumes, IsAtEnd};
ghost use Rattle.trace_text.specs.Input.{row_lines};
ghost use Rattle.tracer.specs.Printed.{printed};
ghost use Rattle.tracer.specs.Session.{session_of, fed_over, put_over};

use std::fmt::{Display, Formatter};
use std::io::{Cursor, Eprint, Read, Write};
use std::{fmt, io};
use tracer::Tracer;

const PART_ROOM: usize = 65536;

// std cuts a reason at 256 bytes.
const LINE_ROOM: usize = 320;

// The call that failed, and why.
#[derive(Drop)]
enum Failure {
    Read(io::Error),
    Write(io::Error),
}

impl Display for Failure {
    fn fmt<W: fmt::Write>(&self, f: &mut Formatter<W>) -> fmt::Result {
        match self {
            Failure::Read(error) => write!(f, "read: {error}"),
            Failure::Write(error) => write!(f, "write: {error}"),
        }
    }
}

// The next bytes of the input, and how many: none at its end.
fn read_part<R: Read>(input: &mut R, part: &mut [u8; PART_ROOM]) -> Result<usize, Failure>
    ensures upper_bound { IfOk result (λ end. end ≤ length part.new) }
    ensures bytes { IfOk result (λ end. Consumes (R.remaining input.old) (R.remaining input.new) (take end part.new)) }
    ensures at_end { IfOk result (λ end. end ≡ 0 → IsAtEnd (R.remaining input.new)) }
{
    input.read(part).map_err(Failure::Read)
}

// Writes out the first `end` bytes.
fn flush<W: Write>(output: &mut W, out: &[u8], end: usize) -> Result<(), Failure>
    requires { end ≤ length out.now }
    ensures { OnOk result (Appends (W.contents output.old) (W.contents output.new) (take end out.now)) }
{
    output.write_all(&out[..end]).map_err(Failure::Write)
}

// A part of the input, in as many calls as its output takes.
fn trace_part<W: Write>(
    text: &mut [u8; tracer::TEXT_ROOM],
    image: &mut [u8; limits::IMAGE_ROOM],
    state: &mut [i32; limits::STATE_LIMIT],
    cells: &mut [i32; trace_text::LONG_ROW],
    first: Tracer,
    part: &[u8],
    out: &mut [u8; tracer::OUTPUT_ROOM],
    output: &mut W,
) -> Result<Tracer, Failure>
    ensures session { IfOk result (λ s. session_of s text.new image.new state.new cells.new
        ≡ fed_over (session_of first text.old image.old state.old cells.old) part.now) }
    ensures output { OnOk result (Appends (W.contents output.old) (W.contents output.new)
        (put_over (session_of first text.old image.old state.old cells.old) part.now)) }
{
    let mut s = first;
    let mut at = 0;
    // a `while`: the place moves on by as many bytes as a call took
    while at < part.len() {
        let fed = tracer::feed(text, image, state, cells, s, &part[at..], out);
        s = fed.tracer;
        at += fed.taken;
        flush(output, out, fed.put)?;
    }
    Ok(s)
}

// All of the input, and whether it has ended: nothing says that it does, so the loop counts its turns, up to a number that no run uses up.
fn trace_input<R: Read, W: Write>(
    text: &mut [u8; tracer::TEXT_ROOM],
    image: &mut [u8; limits::IMAGE_ROOM],
    state: &mut [i32; limits::STATE_LIMIT],
    cells: &mut [i32; trace_text::LONG_ROW],
    part: &mut [u8; PART_ROOM],
    out: &mut [u8; tracer::OUTPUT_ROOM],
    input: &mut R,
    output: &mut W,
) -> Result<bool, Failure>
    ensures { IfOk result (λ has_ended. has_ended ≡ true → IfSome (R.remaining input.old) (λ bytes.
        length (row_lines bytes) ≤ 18446744073709551615
        → Appends (W.contents output.old) (W.contents output.new) (printed bytes))) }
{
    let mut s = tracer::begin();
    for _ in 0..u64::MAX {
        let end = read_part(input, part)?;
        if end == 0 {
            let put = tracer::finish(text, image, state, cells, s, out);
            flush(output, out, put)?;
            return Ok(true);
        }
        s = trace_part(text, image, state, cells, s, &part[..end], out, output)?;
    }
    Ok(false)
}

// The line without the number that std puts behind the system's words.
fn words_of(line: &str) -> &str {
    match line.find(" (os error ") {
        Some(end) => &line[..end],
        None => line,
    }
}

// On standard error: the call, and the reason in the words of the system.
fn tell<R: Eprint>(rt: &R, failure: &Failure) {
    let mut line = Cursor::new([0u8; LINE_ROOM]);
    if write!(line, "{failure}").is_err() {
        return;
    }
    let end = line.position() as usize;
    let bytes = line.into_inner();
    if let Some(told) = bytes.get(..end)
        && let Ok(told) = str::from_utf8(told)
    {
        let _ = rt.eprintln(words_of(told));
    }
}

fn main(rt: HostRuntime) {
    let mut text = [0u8; tracer::TEXT_ROOM];
    let mut image = [0u8; limits::IMAGE_ROOM];
    let mut state = [0i32; limits::STATE_LIMIT];
    let mut cells = [0i32; trace_text::LONG_ROW];
    let mut part = [0u8; PART_ROOM];
    let mut out = [0u8; tracer::OUTPUT_ROOM];
    let traced = trace_input(
        &mut text,
        &mut image,
        &mut state,
        &mut cells,
        &mut part,
        &mut out,
        &mut rt.stdin(),
        &mut io::writer(&rt),
    );
    if let Err(failure) = traced {
        tell(&rt, &failure);
    }
}
