// A scan in instalments finished and started, and a row posted for the next one, on the lent memory of `paused`.
#![tactic(auto)]

ghost use Rattle.std.specs.Prelude.{◌≡◌, cond, ◌+◌, ◌≤◌, ◌<◌, ◌^◌, eqb, ltb, pos, length, take, set};
ghost use Rattle.paused.specs.Responses.{ResponseWithin};
ghost use Rattle.before.specs.Before.{tested_before};
ghost use Rattle.limits.specs.Limits.{image_limit, name_limit, state_limit, wrong_length, paused_length};
ghost use Rattle.limits.specs.Answer.{accepted};
ghost use Rattle.resumable.specs.Instalment.{after_call};
ghost use Rattle.lifecycle.specs.Calls.{same_values, after_finish, finish_of, or_refused, begin_of, with_row, post_of};
ghost use Rattle.lifecycle.specs.Inner.Parts.{finish_ended, kept_start, layout_with, StartKeepable, Beginning, FullScratch, RowWaits};

use machine::{Timing, lists};
use paused::{Checkpoint, Layout, Response};

// One more than its length is kept of a row that waits.
const BEFORE_ROW: usize = paused::ROW - 1;

// A count at a place of the memory.
fn put(memory: &mut [i32], i: usize, n: usize)
    requires { (i < length memory.old) × (n < 2 ^ 31) }
    ensures { memory.new ≡ set memory.old i (pos n) }
{
    memory[i] = n as i32;
}

// The same values, as many of them: `==`, with the document's definition beside it.
fn same(a: &[i32], b: &[i32]) -> bool
    ensures { result ≡ same_values a.now b.now }
{
    a == b
}

// A scan at the end of its code: 24, or the state is written and the scan is over.
fn finish_ended(memory: &mut [i32], state: &mut [i32], size: usize, steps: usize) -> Response
    requires memory_len { (length memory.old ≡ paused_length) × (size ≤ state_limit) }
    requires steps_le_image_limit { steps ≤ image_limit }
    ensures state_after { after_finish result memory.new state.new ≡ finish_ended steps size state.old memory.old }
    ensures response_within { ResponseWithin image_limit result }
{
    if !same(state, &memory[paused::START..paused::START + size]) {
        return Response::Refused(limits::STATE_DIFFERS, 0, 0);
    }
    lists::fill(state, &memory[paused::CURRENT..paused::CURRENT + size]);
    put(memory, paused::CHECKPOINT, paused::NO_SCAN);
    Response::Done(steps)
}

// Idle, unfinished, the scan's refusal, 24, success. Only success writes the state.
pub fn finish(paused: &mut [i32], state: &mut [i32]) -> Response
    ensures state_after { after_finish result paused.new state.new ≡ finish_of state.old paused.old }
    ensures response_within { ResponseWithin image_limit result }
{
    if paused.len() != limits::PAUSED_LENGTH {
        return Response::Idle;
    }
    let p = paused::checkpoint_in(paused);
    let phase = p.phase;
    if phase == paused::NO_SCAN {
        return Response::Idle;
    }
    if phase == paused::UNDER_WAY {
        return Response::Unfinished(0);
    }
    if phase == paused::AT_END {
        let layout = paused::layout_in(paused);
        return finish_ended(paused, state, layout.size, p.steps);
    }
    put(paused, paused::CHECKPOINT, paused::NO_SCAN);
    Response::Refused(p.number, 0, p.steps)
}

// What a start keeps: ranges, the state, the image's layout, the current values, and no step done.
fn keep_start(
    memory: &mut [i32],
    layout: Layout,
    state: &[i32],
    low: &[i32],
    high: &[i32],
    cur: &[i32],
)
    requires { StartKeepable memory.old layout state.now low.now high.now cur.now }
    ensures { memory.new ≡ kept_start layout state.now low.now high.now cur.now memory.old }
{
    let image = layout.image;
    let base = layout.base;
    let code = image - base;
    lists::store(memory, paused::LOW, low);
    lists::store(memory, paused::HIGH, high);
    lists::store(memory, paused::START, state);
    paused::store_layout(memory, layout);
    lists::store(memory, paused::CURRENT, cur);
    let p = Checkpoint {
        phase: resumable::phase_at(code, 0),
        number: 0,
        place: 0,
        steps: 0,
        held: 0,
        picked: false,
        passing: false,
    };
    paused::store_checkpoint(memory, p);
}

// A scan that passes the tests before its code, kept.
fn begin_code(
    memory: &mut [i32],
    len: usize,
    place: usize,
    timing: Timing,
    state: &[i32],
    low: &[i32],
    high: &[i32],
    work: &[i32],
) -> Response
    requires { Beginning memory.old len place timing state.now low.now high.now work.now }
    ensures { (result ≡ Response.Done 0) × (memory.new ≡ kept_start (layout_with len place (length state.now) timing) state.now
        (take (length state.now) low.now) (take (length state.now) high.now) (take (length state.now) work.now) memory.old) }
{
    let size = state.len();
    let layout = Layout {
        image: len,
        base: place,
        size,
        names: timing.names,
        millis: timing.millis,
        timers: timing.timers,
    };
    keep_start(
        memory,
        layout,
        state,
        &low[..size],
        &high[..size],
        &work[..size],
    );
    Response::Done(0)
}

// The waiting row is taken and the tests before the code are made, in lent memory.
fn begin_in(
    paused: &mut [i32],
    image: &[u8],
    state: &[i32],
    low: &mut [i32],
    high: &mut [i32],
    work: &mut [i32],
    w: usize,
) -> Response
    requires full_scratch { FullScratch low.old high.old work.old }
    requires row_waits { RowWaits paused.old w }
    ensures paused_after { after_call result paused.new ≡ begin_of image.now state.now paused.old }
    ensures response_within { ResponseWithin image_limit result }
{
    let end = BEFORE_ROW + w;
    let tried = before::before_code(image, state, &paused[paused::ROW..end], low, high, work);
    put(paused, paused::WAITING, 0);
    match tried {
        Err(e) => Response::Refused(e.number(), e.place(), 0),
        Ok(c) => begin_code(
            paused,
            image.len(),
            c.place,
            c.timing,
            state,
            low,
            high,
            work,
        ),
    }
}

// Unfinished before the last scan is over, idle without a waiting row; then 9, 11, 12, 18, 13.
// With memory of its own.
fn begin_row(paused: &mut [i32], image: &[u8], state: &[i32], w: usize) -> Response
    requires { RowWaits paused.old w }
    ensures paused_after { after_call result paused.new ≡ begin_of image.now state.now paused.old }
    ensures response_within { ResponseWithin image_limit result }
{
    let mut low = [0i32; limits::STATE_LIMIT];
    let mut high = [0i32; limits::STATE_LIMIT];
    let mut work = [0i32; limits::STATE_LIMIT];
    begin_in(paused, image, state, &mut low, &mut high, &mut work, w)
}

// A row is looked for before any memory is cleared.
pub fn begin(paused: &mut [i32], image: &[u8], state: &[i32]) -> Response
    ensures paused_after { after_call result paused.new ≡ begin_of image.now state.now paused.old }
    ensures response_within { ResponseWithin image_limit result }
{
    if paused.len() != limits::PAUSED_LENGTH {
        return Response::Idle;
    }
    let p = paused::checkpoint_in(paused);
    let phase = p.phase;
    if phase != paused::NO_SCAN {
        return Response::Unfinished(0);
    }
    let w = paused::waiting(paused);
    if w == 0 {
        return Response::Idle;
    }
    begin_row(paused, image, state, w)
}

// The numbers of a row: the milliseconds too, where states have elapsed times.
fn row_length(inputs: usize, names: usize, size: usize) -> usize
    requires { inputs ≤ name_limit }
    ensures { result ≡ cond (ltb names size) (inputs + 1) inputs }
{
    if names < size {
        return inputs + 1;
    }
    inputs
}

// A row of so many numbers, or 12.
fn post_row(memory: &mut [i32], row: &[i32], len: usize) -> Response
    requires { (length memory.old ≡ paused_length) × (len ≤ name_limit) }
    ensures memory_after { after_call result memory.new
        ≡ or_refused (tested_before (eqb (length row.now) len) wrong_length (accepted tt)) memory.old
        (after_call (Response.Done 0) (with_row row.now memory.old)) }
    ensures response_within { ResponseWithin image_limit result }
{
    if row.len() != len {
        return Response::Refused(limits::WRONG_LENGTH, 0, 0);
    }
    lists::store(memory, paused::ROW, row);
    put(memory, paused::WAITING, row.len() + 1);
    Response::Done(0)
}

// The row waits for the next scan. 9, 11, then 12; a refused one replaces nothing. No ranges are asked for.
pub fn post(paused: &mut [i32], image: &[u8], row: &[i32]) -> Response
    ensures paused_after { after_call result paused.new ≡ post_of image.now row.now paused.old }
    ensures response_within { ResponseWithin image_limit result }
{
    if paused.len() != limits::PAUSED_LENGTH {
        return Response::Idle;
    }
    let mut low = [0i32; 1];
    let mut high = [0i32; 1];
    match shapes::shape(image, &mut low, &mut high) {
        Err(e) => Response::Refused(e.number(), e.place(), 0),
        Ok(m) => post_row(paused, row, row_length(m.inputs, m.names, m.size)),
    }
}
