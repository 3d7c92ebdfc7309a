// The tests of a scan before its code: 9, 11, 12, 18, 13.
#![tactic(auto)]

ghost use Rattle.std.specs.Prelude.{◌≡◌, List, ◌+◌, length};
ghost use Rattle.limits.specs.Limits.{state_limit};
ghost use Rattle.limits.specs.Refusals.{judged_by};
ghost use Rattle.semantics.specs.Program.{Range};
ghost use Rattle.semantics.specs.Shape.{Shape};
ghost use Rattle.machine.specs.Inner.Memory.{RangesIn};
ghost use Rattle.before.specs.Before.{before_code};
ghost use Rattle.before.specs.Inner.Memory.{FittingMemory, Scratch};
ghost use Rattle.before.specs.Inner.Known.{in_ranges, CopiedBy, KnownShape, tested_row, PreparedBy, ShapedFor, BegunBy};

use limits::Refusal;
use machine::{Timing, lists};
use shapes::Measured;

// The place of the code, and the timing of the row.
#[derive(Clone, Copy)]
pub struct Code {
    pub place: usize,
    pub timing: Timing,
}

// The state, then the inputs; then they stand over a copy of the state.
fn before_ranges(
    place: usize,
    timing: Timing,
    low: &[i32],
    high: &[i32],
    state: &[i32],
    inputs: &[i32],
    work: &mut [i32],
) -> Result<Code, Refusal>
    requires { FittingMemory (length inputs.now) state.now low.now high.now work.old }
    ensures result_value { (ns : List Range) → RangesIn ns low.now high.now → judged_by result ≡ in_ranges ns state.now inputs.now }
    ensures copied_by { CopiedBy place timing state.now inputs.now work.new result }
{
    if !lists::all_in_range(low, high, state) {
        return Err(Refusal::StateOutOfRange);
    }
    if !lists::all_in_range(low, high, inputs) {
        return Err(Refusal::InputOutOfRange);
    }
    lists::take_row(work, state, inputs);
    Ok(Code { place, timing })
}

// A row that ends with milliseconds: they are tested last.
fn before_timed(
    m: Measured,
    low: &[i32],
    high: &[i32],
    state: &[i32],
    row: &[i32],
    work: &mut [i32],
) -> Result<Code, Refusal>
    requires fitting_memory { FittingMemory m.inputs state.now low.now high.now work.old }
    requires row_len { (length row.now ≡ m.inputs + 1) × (length state.now ≡ m.names → ⊥) }
    ensures result_value { (k : Shape) → KnownShape k m low.now high.now → judged_by result ≡ tested_row k state.now row.now }
    ensures prepared_by { (k : Shape) → KnownShape k m low.now high.now
        → PreparedBy k m state.now row.now work.new result }
{
    let inputs = m.inputs;
    let time = row[inputs];
    let timing = Timing {
        names: m.names,
        timers: m.timers,
        millis: arith::count(time),
    };
    let tested = before_ranges(m.place, timing, low, high, state, &row[..inputs], work)?;
    if 0 <= time {
        return Ok(tested);
    }
    Err(Refusal::InputOutOfRange)
}

// An image known to be sound, whose shape was read, and a state of its length: 12 of the row, 18, 13. A state without elapsed times has no timers.
pub fn before_known(
    m: Measured,
    low: &[i32],
    high: &[i32],
    state: &[i32],
    row: &[i32],
    work: &mut [i32],
) -> Result<Code, Refusal>
    requires { FittingMemory m.inputs state.now low.now high.now work.old }
    ensures result_value { (k : Shape) → KnownShape k m low.now high.now → judged_by result ≡ tested_row k state.now row.now }
    ensures prepared_by { (k : Shape) → KnownShape k m low.now high.now
        → PreparedBy k m state.now row.now work.new result }
{
    if state.len() == m.names {
        if row.len() != m.inputs {
            return Err(Refusal::WrongLength);
        }
        let timing = Timing {
            names: m.names,
            timers: m.timers,
            millis: 0,
        };
        return before_ranges(m.place, timing, low, high, state, row, work);
    }
    if row.len() != m.inputs + 1 {
        return Err(Refusal::WrongLength);
    }
    before_timed(m, low, high, state, row, work)
}

// 9, 11, then 12 of a state of so many numbers: the shape of an image whose states have as many.
pub fn shape_for(
    image: &[u8],
    numbers: usize,
    low: &mut [i32],
    high: &mut [i32],
) -> Result<Measured, Refusal>
    ensures { ShapedFor image.now numbers low.old high.old low.new high.new result }
{
    let m = shapes::shape(image, low, high)?;
    if numbers != m.size {
        return Err(Refusal::WrongLength);
    }
    Ok(m)
}

// 9, 11, 12, 18, 13; what the code's run needs then stands at the front of the lent memory.
pub fn before_code(
    image: &[u8],
    state: &[i32],
    row: &[i32],
    low: &mut [i32],
    high: &mut [i32],
    work: &mut [i32],
) -> Result<Code, Refusal>
    requires { Scratch state_limit state.now low.old high.old work.old }
    ensures result_value { judged_by result ≡ before_code image.now state.now row.now }
    ensures begun_by { BegunBy image.now state.now row.now low.new high.new work.new result }
{
    let m = shape_for(image, state.len(), low, high)?;
    let size = m.size;
    before_known(
        m,
        &low[..size],
        &high[..size],
        state,
        row,
        &mut work[..size],
    )
}
