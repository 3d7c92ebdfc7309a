// Translation, start and a list of rows in one call, with records of each scan.
#![tactic(auto)]

ghost use Rattle.std.specs.Prelude.{◌≡◌, List, ℕ, ◌≤◌, length, set};
ghost use Rattle.limits.specs.Limits.{state_limit, stack_limit};
ghost use Rattle.scan.specs.Services.{start_of, scan_of};
ghost use Rattle.before.specs.Inner.Memory.{Scratch};
ghost use Rattle.replay.specs.Replay.{rows_of, replay_rows, replay_of};
ghost use Rattle.replay.specs.Results.{lent, after_replay, ShownBy, ReplayedWithin};
ghost use Rattle.replay.specs.Inner.Records.{records, record_scan, scan_rows, KnownBy};

use limits::Refusal;
use machine::lists;
use scan::Scanned;
use shapes::Measured;

// One element, where there is room for it.
fn store<T: Copy>(records: &mut [T], i: usize, x: T)
    ensures { records.new ≡ set records.old i x }
{
    if i < records.len() {
        records[i] = x;
    }
}

// The scan of row i of an image known to be sound, whose shape was read, with its records: number and steps at the row's place, the state of an
// accepted one behind the trace. The place behind the trace then.
fn scan_row(
    image: &[u8],
    m: Measured,
    low: &[i32],
    high: &[i32],
    work: &mut [i32],
    vals: &mut [i32],
    state: &mut [i32],
    row: &[i32],
    i: usize,
    numbers: &mut [u8],
    steps: &mut [usize],
    trace: &mut [i32],
    place: usize,
) -> usize
    requires place_in_bounds { place ≤ length trace.old }
    requires known_by { KnownBy image.now m low.now high.now work.old vals.old state.old }
    ensures { records state.new numbers.new steps.new trace.new result
        ≡ record_scan i (scan_of image.now state.old row.now)
        (records state.old numbers.old steps.old trace.old place) }
{
    match scan::scan_known(image, m, state, row, low, high, work, vals) {
        Scanned::Done(n) => {
            store(numbers, i, 0);
            store(steps, i, n);
            lists::store(trace, place, state)
        }
        Scanned::Refused(number, _, reached) => {
            store(numbers, i, number);
            store(steps, i, reached);
            place
        }
    }
}

// The rows that cells and lengths spell, each scanned on the state that the scan before left. The place behind the trace.
fn scan_rows(
    image: &[u8],
    m: Measured,
    low: &[i32],
    high: &[i32],
    work: &mut [i32],
    vals: &mut [i32],
    state: &mut [i32],
    cells: &[i32],
    lengths: &[usize],
    at: usize,
    numbers: &mut [u8],
    steps: &mut [usize],
    trace: &mut [i32],
) -> usize
    requires at_in_bounds { at ≤ length trace.old }
    requires known_by { KnownBy image.now m low.now high.now work.old vals.old state.old }
    ensures { records state.new numbers.new steps.new trace.new result
        ≡ scan_rows image.now 0 (rows_of cells.now lengths.now)
        (records state.old numbers.old steps.old trace.old at) }
{
    let mut cell = 0;
    let mut place = at;
    for (i, length) in lengths.iter().enumerate() {
        let end = lists::behind(cell, *length, cells.len());
        let row = &cells[cell..end];
        place = scan_row(
            image, m, low, high, work, vals, state, row, i, numbers, steps, trace, place,
        );
        cell = end;
    }
    place
}

// A whole image: it is checked and its shape is read once; then start and the rows.
fn replay_in(
    image: &[u8],
    state: &mut [i32],
    cells: &[i32],
    lengths: &[usize],
    numbers: &mut [u8],
    steps: &mut [usize],
    trace: &mut [i32],
    low: &mut [i32],
    high: &mut [i32],
    work: &mut [i32],
    vals: &mut [i32],
) -> Result<usize, Refusal>
    requires scratch { Scratch state_limit state.old low.old high.old work.old }
    requires stack_limit_in_bounds { stack_limit ≤ length vals.old }
    ensures by_index { (buffer : List ℕ) → after_replay result (lent buffer state.new numbers.new steps.new trace.new)
        ≡ replay_rows (start_of image.now state.old) (length image.now) image.now (rows_of cells.now lengths.now)
        (lent buffer state.old numbers.old steps.old trace.old) }
    ensures replayed_within { ReplayedWithin result }
{
    let m = scan::start_shape(image, state, low, high)?;
    let size = m.size;
    let at = lists::store(trace, 0, state);
    scan_rows(
        image,
        m,
        &low[..size],
        &high[..size],
        &mut work[..size],
        vals,
        state,
        cells,
        lengths,
        at,
        numbers,
        steps,
        trace,
    );
    Ok(image.len())
}

// The same, with memory of its own for the ranges and the current values.
fn replay_image(
    image: &[u8],
    state: &mut [i32],
    cells: &[i32],
    lengths: &[usize],
    numbers: &mut [u8],
    steps: &mut [usize],
    trace: &mut [i32],
) -> Result<usize, Refusal>
    ensures by_index { (buffer : List ℕ) → after_replay result (lent buffer state.new numbers.new steps.new trace.new)
        ≡ replay_rows (start_of image.now state.old) (length image.now) image.now (rows_of cells.now lengths.now)
        (lent buffer state.old numbers.old steps.old trace.old) }
    ensures replayed_within { ReplayedWithin result }
{
    let mut low = [0i32; limits::STATE_LIMIT];
    let mut high = [0i32; limits::STATE_LIMIT];
    let mut work = [0i32; limits::STATE_LIMIT];
    let mut vals = [0i32; limits::STACK_LIMIT];
    replay_in(
        image, state, cells, lengths, numbers, steps, trace, &mut low, &mut high, &mut work,
        &mut vals,
    )
}

// The image's length, or the refusal of translation or start.
pub fn replay(
    text: &[u8],
    image: &mut [u8],
    state: &mut [i32],
    cells: &[i32],
    lengths: &[usize],
    numbers: &mut [u8],
    steps: &mut [usize],
    trace: &mut [i32],
) -> Result<usize, Refusal>
    ensures trace_after { after_replay result (lent image.new state.new numbers.new steps.new trace.new)
        ≡ replay_of text.now cells.now lengths.now
        (lent image.old state.old numbers.old steps.old trace.old) }
    ensures shown_by { ShownBy result text.now cells.now lengths.now
        (lent image.old state.old numbers.old steps.old trace.old)
        (lent image.new state.new numbers.new steps.new trace.new) }
    ensures replayed_within { ReplayedWithin result }
{
    let n = translate::translate(text, image)?;
    replay_image(&image[..n], state, cells, lengths, numbers, steps, trace)
}
