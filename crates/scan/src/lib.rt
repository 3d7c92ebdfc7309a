// Starting and scanning an image: the services start and scan.
#![tactic(auto)]

ghost use Rattle.std.specs.Prelude.{◌≡◌, true, false, ◌≤◌, pos, length, replicate};
ghost use Rattle.std.proofs.lemmas.List.Edits.{sets};
ghost use Rattle.limits.specs.Limits.{image_limit, name_limit, state_limit, stack_limit};
ghost use Rattle.limits.specs.Answer.{accepted};
ghost use Rattle.limits.specs.Refusals.{refusal_number, refusal_place};
ghost use Rattle.semantics.specs.Shape.{has_timer, all_within, Setting};
ghost use Rattle.bytecode.specs.Check.{check_of};
ghost use Rattle.bytecode.specs.Parts.{header_of, limits_of};
ghost use Rattle.machine.specs.Inner.Memory.{ran_of, RangesIn, TimingIn, OneEach};
ghost use Rattle.before.specs.Inner.Memory.{FittingMemory, Scratch};
ghost use Rattle.before.specs.Inner.Known.{KnownImage};
ghost use Rattle.scan.specs.Services.{start_of, refused_scan, scan_of};
ghost use Rattle.scan.specs.Results.{after_start, StartedWithin, after_scan, ScannedWithin};
ghost use Rattle.scan.specs.Inner.Parts.{ran_over, scanned_over, KnownHeader, StartedFor};

use checker::Surveyed;
use fused::Ended;
use limits::Refusal;
use machine::{Executed, Registers, Stepped, Timing, lists};
use shapes::Measured;

// The steps; or the number of a refusal, its place and the steps. No Result<_, Refusal>: the number of a refused step is `machine::Stepped`'s u8, and C sees the steps of both.
#[derive(Clone, Copy)]
pub enum Scanned {
    Done(usize),
    Refused(u8, usize, usize),
}

// A refusal before the first step.
fn refused(e: Refusal) -> Scanned
    ensures { result ≡ Scanned.Refused (refusal_number e) (refusal_place e) 0 }
{
    Scanned::Refused(e.number(), e.place(), 0)
}

// The whole run of a code; in a state without elapsed times by the loop that works no timers.
fn run_whole(
    code: &[u8],
    low: &[i32],
    high: &[i32],
    prev: &[i32],
    cur: &mut [i32],
    vals: &mut [i32],
    timing: Timing,
) -> Executed
    requires stack_limit_in_bounds { stack_limit ≤ length vals.old }
    requires one_each { OneEach low.now high.now prev.now cur.old }
    ensures cur_after { (ns : Setting) → RangesIn ns.ranges low.now high.now → TimingIn ns timing
        → ran_of result vals.new cur.new ≡ ran_over ns code.now prev.now cur.old }
    ensures steps_in_bounds { result.steps ≤ length code.now }
{
    let names = timing.names;
    let m = Registers {
        held: 0,
        picked: false,
        passing: false,
    };
    if prev.len() <= names {
        return machine::run_untimed(code, low, high, prev, cur, vals, names, 0, m, code.len());
    }
    machine::run(code, low, high, prev, cur, vals, timing, 0, m, code.len())
}

// The run of a code over a copy of the state that holds the row's inputs; the state is written once, at success.
fn run_over(
    code: &[u8],
    state: &mut [i32],
    low: &[i32],
    high: &[i32],
    work: &mut [i32],
    vals: &mut [i32],
    timing: Timing,
) -> Scanned
    requires fitting_memory { FittingMemory 0 state.old low.now high.now work.old }
    requires stack_limit_in_bounds { stack_limit ≤ length vals.old }
    ensures state_after { (ns : Setting) → RangesIn ns.ranges low.now high.now → TimingIn ns timing
        → after_scan result state.new ≡ scanned_over ns code.now state.old work.old }
    ensures scanned_within { ScannedWithin (length code.now) result }
{
    let ran = run_whole(code, low, high, state, work, vals, timing);
    let last = ran.last;
    match last {
        Stepped::Next(_) => {
            lists::fill(state, work);
            Scanned::Done(ran.steps)
        }
        Stepped::Refused(number) => Scanned::Refused(number, 0, ran.steps),
    }
}

// The scan of an image known to be sound, whose shape was read, on a state of its length: 12 of the row, 18, 13, then the code.
pub fn scan_known(
    image: &[u8],
    m: Measured,
    state: &mut [i32],
    row: &[i32],
    low: &[i32],
    high: &[i32],
    work: &mut [i32],
    vals: &mut [i32],
) -> Scanned
    requires known_image { KnownImage image.now m state.old low.now high.now }
    requires work_len { length work.old ≡ length state.old }
    requires stack_limit_in_bounds { stack_limit ≤ length vals.old }
    ensures state_after { after_scan result state.new ≡ scan_of image.now state.old row.now }
    ensures scanned_within { ScannedWithin image_limit result }
{
    let place = m.place;
    match before::before_known(m, low, high, state, row, work) {
        Err(e) => refused(e),
        Ok(c) => run_over(&image[place..], state, low, high, work, vals, c.timing),
    }
}

// Any scan, the slow way: 9 and 11, 12 of the state, then the scan of an image known to be sound.
fn scan_begun(
    image: &[u8],
    state: &mut [i32],
    row: &[i32],
    low: &mut [i32],
    high: &mut [i32],
    work: &mut [i32],
    vals: &mut [i32],
) -> Scanned
    requires scratch { Scratch state_limit state.old low.old high.old work.old }
    requires stack_limit_in_bounds { stack_limit ≤ length vals.old }
    ensures state_after { after_scan result state.new ≡ scan_of image.now state.old row.now }
    ensures scanned_within { ScannedWithin image_limit result }
{
    match before::shape_for(image, state.len(), low, high) {
        Err(e) => refused(e),
        Ok(m) => {
            let size = m.size;
            scan_known(
                image,
                m,
                state,
                row,
                &low[..size],
                &high[..size],
                &mut work[..size],
                vals,
            )
        }
    }
}

// The same, with memory of its own.
fn scan_other(image: &[u8], state: &mut [i32], row: &[i32]) -> Scanned
    ensures state_after { after_scan result state.new ≡ scan_of image.now state.old row.now }
    ensures scanned_within { ScannedWithin image_limit result }
{
    let mut low = [0i32; limits::STATE_LIMIT];
    let mut high = [0i32; limits::STATE_LIMIT];
    let mut work = [0i32; limits::STATE_LIMIT];
    let mut vals = [0i32; limits::STACK_LIMIT];
    scan_begun(image, state, row, &mut low, &mut high, &mut work, &mut vals)
}

// What the check of the image answers; where it is sound and has no timers, this refusal.
fn after_check(image: &[u8], state: &mut [i32], row: &[i32], first: Refusal) -> Scanned
    requires { refusal_place first ≤ image_limit }
    ensures state_after { (check_of image.now ≡ accepted tt → has_timer (limits_of image.now) ≡ false
        → refused_scan (refusal_number first) (refusal_place first) 0 state.old ≡ scan_of image.now state.old row.now)
        → after_scan result state.new ≡ scan_of image.now state.old row.now }
    ensures scanned_within { ScannedWithin image_limit result }
{
    match checker::survey(image) {
        Err(broken) => refused(broken),
        Ok(Surveyed::Plain) => refused(first),
        Ok(Surveyed::Timed) => scan_other(image, state, row),
    }
}

// The code, which begins at `place`, checked and run in one pass on a copy of the state, which is written once, at success. Timers go the slow way.
fn scan_code(
    image: &[u8],
    place: usize,
    state: &mut [i32],
    row: &[i32],
    low: &[i32],
    high: &[i32],
    copy: &mut [i32],
) -> Scanned
    requires fitting_memory { FittingMemory (length row.now) state.old low.now high.now copy.old }
    requires known_header { KnownHeader image.now place (length row.now) (length state.old) low.now high.now }
    requires state_value { (all_within (header_of image.now).ranges state.old ≡ true) × (all_within (header_of image.now).ranges row.now ≡ true) }
    ensures state_after { after_scan result state.new ≡ scan_of image.now state.old row.now }
    ensures scanned_within { ScannedWithin image_limit result }
{
    lists::take_row(copy, state, row);
    let ran = fused::run(&image[place..], low, high, state, copy, row.len());
    match ran {
        Ended::Done(n) => {
            lists::fill(state, copy);
            Scanned::Done(n)
        }
        Ended::Refused(number, n) => Scanned::Refused(number, 0, n),
        Ended::Broken(at) => refused(Refusal::BrokenImage(place + at)),
        Ended::Timed => scan_other(image, state, row),
    }
}

// The state, then the row, then the code; an image that is not sound comes first.
fn scan_values(
    image: &[u8],
    place: usize,
    state: &mut [i32],
    row: &[i32],
    low: &[i32],
    high: &[i32],
    copy: &mut [i32],
) -> Scanned
    requires fitting_memory { FittingMemory (length row.now) state.old low.now high.now copy.old }
    requires known_header { KnownHeader image.now place (length row.now) (length state.old) low.now high.now }
    ensures state_after { after_scan result state.new ≡ scan_of image.now state.old row.now }
    ensures scanned_within { ScannedWithin image_limit result }
{
    if !lists::all_in_range(low, high, state) {
        return after_check(image, state, row, Refusal::StateOutOfRange);
    }
    if !lists::all_in_range(low, high, row) {
        return after_check(image, state, row, Refusal::InputOutOfRange);
    }
    scan_code(image, place, state, row, low, high, copy)
}

// 9, then the header and the lengths: a wrong length is told after the check of the image. The starts that `work` takes are not kept.
fn scan_in(
    image: &[u8],
    state: &mut [i32],
    row: &[i32],
    low: &mut [i32],
    high: &mut [i32],
    work: &mut [i32],
) -> Scanned
    requires { Scratch name_limit state.old low.old high.old work.old }
    ensures state_after { after_scan result state.new ≡ scan_of image.now state.old row.now }
    ensures scanned_within { ScannedWithin image_limit result }
{
    if limits::IMAGE_LIMIT < image.len() {
        return refused(Refusal::TooLong);
    }
    match bytecode::header(image, low, high, work) {
        Err(place) => refused(Refusal::BrokenImage(place)),
        Ok((inputs, names, place)) => {
            if state.len() != names {
                return after_check(image, state, row, Refusal::WrongLength);
            }
            if row.len() != inputs {
                return after_check(image, state, row, Refusal::WrongLength);
            }
            scan_values(
                image,
                place,
                state,
                row,
                &low[..names],
                &high[..names],
                &mut work[..names],
            )
        }
    }
}

// With arrays for N names, which are cleared at each scan.
fn scan_sized<const N: usize>(image: &[u8], state: &mut [i32], row: &[i32]) -> Scanned
    requires { (N ≤ name_limit) × (length state.old ≤ name_limit → length state.old ≤ N) }
    ensures state_after { after_scan result state.new ≡ scan_of image.now state.old row.now }
    ensures scanned_within { ScannedWithin image_limit result }
{
    let mut low = [0i32; N];
    let mut high = [0i32; N];
    let mut work = [0i32; N];
    scan_in(image, state, row, &mut low, &mut high, &mut work)
}

// One scan: 9, 11, 12, 18, 13, then the code. A refusal leaves the state as found; success writes it.
pub fn scan(image: &[u8], state: &mut [i32], row: &[i32]) -> Scanned
    ensures state_after { after_scan result state.new ≡ scan_of image.now state.old row.now }
    ensures scanned_within { ScannedWithin image_limit result }
{
    if state.len() <= 8 {
        return scan_sized::<8>(image, state, row);
    }
    scan_sized::<{ limits::NAME_LIMIT }>(image, state, row)
}

// Zeros from a place on, as many as a state has elapsed times at most.
fn clear(state: &mut [i32], from: usize)
    requires { from ≤ length state.old }
    ensures { state.new ≡ sets state.old from (replicate name_limit (pos 0)) }
{
    let zeros = [0i32; limits::NAME_LIMIT];
    lists::store(state, from, &zeros);
}

// 9, 11 and 12, then the declared starts, and elapsed times of 0; what was measured of the image is handed on. A start needs neither lows nor highs.
pub fn start_shape(
    image: &[u8],
    state: &mut [i32],
    low: &mut [i32],
    high: &mut [i32],
) -> Result<Measured, Refusal>
    ensures { StartedFor image.now state.old low.old high.old low.new high.new state.new result }
{
    let m = before::shape_for(image, state.len(), low, high)?;
    let mut lows = [0i32; 1];
    let mut highs = [0i32; 1];
    // `shape_for` found the image sound, so this stores the starts
    let _ = bytecode::header(image, &mut lows, &mut highs, state);
    clear(state, m.names);
    Ok(m)
}

// The declared starts, after 9, 11 and 12. A refusal leaves the state as found.
pub fn start(image: &[u8], state: &mut [i32]) -> Result<(), Refusal>
    ensures state_after { after_start result state.new ≡ start_of image.now state.old }
    ensures started_within { StartedWithin image_limit result }
{
    let mut low = [0i32; 1];
    let mut high = [0i32; 1];
    start_shape(image, state, &mut low, &mut high)?;
    Ok(())
}
