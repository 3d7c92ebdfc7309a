// The closed profile: every in-range state scanned with every in-range row.
#![tactic(auto)]

ghost use Rattle.std.specs.Prelude.{◌≡◌, List, ◌+◌, ◌-◌, ◌*◌, ◌^◌, ◌≤◌, ◌<◌, min, length, take, drop};
ghost use Rattle.limits.specs.Limits.{name_limit, stack_limit, combination_limit};
ghost use Rattle.semantics.specs.Program.{Range};
ghost use Rattle.machine.specs.Inner.Memory.{RangesIn};
ghost use Rattle.before.specs.Inner.Memory.{FittingMemory};
ghost use Rattle.scan.specs.Inner.Parts.{scanned_code};
ghost use Rattle.closed.specs.Closed.{size_between, product_of_sizes, combinations, paired, walked, closed_of, part_in, closed_part_of, combination_of};
ghost use Rattle.closed.specs.Results.{after_closing, ClosingWithin, profile_of};
ghost use Rattle.closed.specs.Inner.Parts.{next_of, is_refused, working, Walking, visited_as, VisitedWithin, part_working, ClosedRoom, combined_ranges, IsNth};

use limits::Refusal;
use machine::{Registers, Stepped, lists};

// How many values a range has.
fn size(low: i32, high: i32) -> usize
    ensures { (result ≡ size_between low high) × (result ≤ 2 ^ 32) }
{
    if high < low {
        return 1;
    }
    high.abs_diff(low) as usize + 1
}

// The product of the sizes; one over the limit stands for every larger one, since no size is 0.
fn product_of_sizes(low: &[i32], high: &[i32]) -> usize
    requires { length high.now ≡ length low.now }
    ensures value { (ns : List Range) → RangesIn ns low.now high.now → result ≡ min (product_of_sizes ns) (combination_limit + 1) }
    ensures lower_bound { (1 ≤ result) × (result ≤ combination_limit + 1) }
{
    let mut p: usize = 1;
    for (i, l) in low.iter().enumerate() {
        p *= size(*l, high[i]);
        if limits::COMBINATION_LIMIT < p {
            return limits::COMBINATION_LIMIT + 1;
        }
    }
    p
}

// The combination after this one; after the last, the first.
fn next(low: &[i32], high: &[i32], values: &mut [i32])
    requires { (length high.now ≡ length low.now) × (length values.old ≡ length low.now) }
    ensures { (ns : List Range) → RangesIn ns low.now high.now → values.new ≡ next_of ns values.old }
{
    for k in (0..values.len()).rev() {
        if values[k] < high[k] {
            values[k] += 1;
            return;
        }
        values[k] = low[k];
    }
}

// Whether the code refuses a state and a row within their ranges.
fn is_refused(
    code: &[u8],
    low: &[i32],
    high: &[i32],
    state: &[i32],
    row: &[i32],
    work: &mut [i32],
    vals: &mut [i32],
) -> bool
    requires fitting_memory { FittingMemory (length row.now) state.now low.now high.now work.old }
    requires stack_limit_in_bounds { stack_limit ≤ length vals.old }
    ensures { (ns : List Range) → RangesIn ns low.now high.now
        → result ≡ is_refused (scanned_code ns code.now state.now row.now).answer }
{
    lists::take_row(work, state, row);
    let names = low.len();
    let m = Registers {
        held: 0,
        picked: false,
        passing: false,
    };
    let ran = machine::run_untimed(code, low, high, state, work, vals, names, 0, m, code.len());
    let last = ran.last;
    match last {
        Stepped::Next(_) => false,
        Stepped::Refused(_) => true,
    }
}

// The combination of a number: the odometer turned so many times.
fn nth(low: &[i32], high: &[i32], times: usize, values: &mut [i32])
    requires { (length high.now ≡ length low.now) × (length values.old ≡ length low.now) }
    ensures { (ns : List Range) → RangesIn ns low.now high.now → times < product_of_sizes ns → IsNth ns times values.new }
{
    lists::fill(values, low);
    for _ in 0..times {
        next(low, high, values);
    }
}

// The combinations from `first` on and before `end`, rows inside states. It ends at the first scan that is refused, leaves its state and row, and answers how
// many scans were done before it; none where no scan is refused.
fn walk(
    code: &[u8],
    low: &[i32],
    high: &[i32],
    row_low: &[i32],
    row_high: &[i32],
    rows: usize,
    first: usize,
    end: usize,
    state: &mut [i32],
    row: &mut [i32],
    work: &mut [i32],
    vals: &mut [i32],
) -> Option<usize>
    requires walking { Walking low.now high.now row_low.now row_high.now state.old row.old work.old vals.old }
    requires le_rows { (1 ≤ rows) × (first ≤ end) × (end ≤ combination_limit) }
    ensures row_after { (ns is : List Range) → RangesIn ns low.now high.now → RangesIn is row_low.now row_high.now
        → rows ≡ product_of_sizes is → end ≤ product_of_sizes ns * product_of_sizes is
        → visited_as result state.new row.new ≡ walked (working ns code.now) (take (end - first) (drop first (paired (combinations ns) (combinations is)))) first }
    ensures visited_within { VisitedWithin result }
{
    let mut i = first / rows;
    nth(low, high, i, state);
    nth(row_low, row_high, first % rows, row);
    let mut done = first;
    // Nested `while`s left by a label, the project's form: where the walk was left is what is answered.
    'states: while done < end {
        let stop = lists::behind(i * rows, rows, end);
        while done < stop {
            if is_refused(code, low, high, state, row, work, vals) {
                break 'states;
            }
            next(row_low, row_high, row);
            done += 1;
        }
        next(low, high, state);
        i += 1;
    }
    if done < end {
        return Some(done);
    }
    None
}

// The product, then the walk. `state` and `row` are written only where a scan is refused.
fn closed_ranges(
    code: &[u8],
    inputs: usize,
    low: &[i32],
    high: &[i32],
    first: usize,
    most: usize,
    at_state: &mut [i32],
    at_row: &mut [i32],
    work: &mut [i32],
    vals: &mut [i32],
    state: &mut [i32],
    row: &mut [i32],
) -> Result<(), Refusal>
    requires inputs_in_bounds { inputs ≤ length low.now }
    requires walking { Walking low.now high.now (take inputs low.now) (take inputs high.now) at_state.old at_row.old work.old vals.old }
    requires low_in_bounds { (length low.now ≤ length state.old) × (inputs ≤ length row.old) }
    ensures row_after { (ns : List Range) → RangesIn ns low.now high.now
        → after_closing result state.new row.new ≡ part_working ns inputs code.now first most state.old row.old }
    ensures closing_within { ClosingWithin result }
{
    let states = product_of_sizes(low, high);
    let rows = product_of_sizes(&low[..inputs], &high[..inputs]);
    let all = states * rows;
    if limits::COMBINATION_LIMIT < all {
        return Err(Refusal::NotSmall);
    }
    if all <= first {
        return Ok(());
    }
    let end = lists::behind(first, most, all);
    let ended = walk(
        code,
        low,
        high,
        &low[..inputs],
        &high[..inputs],
        rows,
        first,
        end,
        at_state,
        at_row,
        work,
        vals,
    );
    let Some(done) = ended else {
        return Ok(());
    };
    lists::fill(state, at_state);
    lists::fill(row, at_row);
    Err(Refusal::NotClosed(done))
}

// 9, 11, 26, 27, in lent memory. More numbers in a state than names: there is a timer.
fn closed_in(
    image: &[u8],
    first: usize,
    most: usize,
    low: &mut [i32],
    high: &mut [i32],
    at_state: &mut [i32],
    at_row: &mut [i32],
    work: &mut [i32],
    vals: &mut [i32],
    state: &mut [i32],
    row: &mut [i32],
) -> Result<(), Refusal>
    requires name_limit_in_bounds { (name_limit ≤ length at_state.old) × (name_limit ≤ length at_row.old) }
    requires closed_room { ClosedRoom low.old high.old work.old vals.old state.old row.old }
    ensures row_after { after_closing result state.new row.new ≡ part_in image.now first most state.old row.old }
    ensures closing_within { ClosingWithin result }
{
    let m = shapes::shape(image, low, high)?;
    if m.names < m.size {
        return Err(Refusal::NotSmall);
    }
    let inputs = m.inputs;
    let names = m.names;
    let place = m.place;
    closed_ranges(
        &image[place..],
        inputs,
        &low[..names],
        &high[..names],
        first,
        most,
        &mut at_state[..names],
        &mut at_row[..inputs],
        &mut work[..names],
        vals,
        state,
        row,
    )
}

// The answer; for 27, the state and the row of the refused scan stand at the front of the two.
#[derive(Clone, Copy)]
pub struct Profile {
    pub answer: Result<(), Refusal>,
    pub state: [i32; limits::NAME_LIMIT],
    pub row: [i32; limits::NAME_LIMIT],
}

// Whether no scan of a part of the combinations is refused: at most so many, from the one of a number on.
pub fn closed_part(image: &[u8], first: usize, most: usize) -> Profile
    ensures result_value { profile_of result ≡ closed_part_of image.now first most }
    ensures closing_within { ClosingWithin result.answer }
{
    let mut low = [0i32; limits::NAME_LIMIT];
    let mut high = [0i32; limits::NAME_LIMIT];
    let mut at_state = [0i32; limits::NAME_LIMIT];
    let mut at_row = [0i32; limits::NAME_LIMIT];
    let mut work = [0i32; limits::NAME_LIMIT];
    let mut vals = [0i32; limits::STACK_LIMIT];
    let mut state = [0i32; limits::NAME_LIMIT];
    let mut row = [0i32; limits::NAME_LIMIT];
    let answer = closed_in(
        image,
        first,
        most,
        &mut low,
        &mut high,
        &mut at_state,
        &mut at_row,
        &mut work,
        &mut vals,
        &mut state,
        &mut row,
    );
    Profile {
        answer: answer,
        state: state,
        row: row,
    }
}

// Whether no in-range row is ever refused in an in-range state.
pub fn closed_profile(image: &[u8]) -> Profile
    ensures result_value { profile_of result ≡ closed_of image.now }
    ensures closing_within { ClosingWithin result.answer }
{
    closed_part(image, 0, limits::COMBINATION_LIMIT)
}

// 26, 12, then the state and the row.
fn combination_ranges(
    inputs: usize,
    low: &[i32],
    high: &[i32],
    index: usize,
    state: &mut [i32],
    row: &mut [i32],
) -> Result<(), Refusal>
    requires { (inputs ≤ length low.now) × (length high.now ≡ length low.now) }
    ensures row_after { (ns : List Range) → RangesIn ns low.now high.now
        → after_closing result state.new row.new ≡ combined_ranges ns inputs index state.old row.old }
    ensures closing_within { ClosingWithin result }
{
    let states = product_of_sizes(low, high);
    let rows = product_of_sizes(&low[..inputs], &high[..inputs]);
    if limits::COMBINATION_LIMIT < states * rows {
        return Err(Refusal::NotSmall);
    }
    if state.len() != low.len() {
        return Err(Refusal::WrongLength);
    }
    if row.len() != inputs {
        return Err(Refusal::WrongLength);
    }
    if states * rows <= index {
        return Err(Refusal::WrongLength);
    }
    nth(low, high, index / rows, state);
    nth(&low[..inputs], &high[..inputs], index % rows, row);
    Ok(())
}

fn combination_in(
    image: &[u8],
    index: usize,
    state: &mut [i32],
    row: &mut [i32],
    low: &mut [i32],
    high: &mut [i32],
) -> Result<(), Refusal>
    requires { (name_limit ≤ length low.old) × (name_limit ≤ length high.old) }
    ensures row_after { after_closing result state.new row.new ≡ combination_of image.now index state.old row.old }
    ensures closing_within { ClosingWithin result }
{
    let m = shapes::shape(image, low, high)?;
    if m.names < m.size {
        return Err(Refusal::NotSmall);
    }
    let names = m.names;
    combination_ranges(m.inputs, &low[..names], &high[..names], index, state, row)
}

// The state and the row of a number that 27 gave: 9, 11, 26, 12.
pub fn combination(
    image: &[u8],
    index: usize,
    state: &mut [i32],
    row: &mut [i32],
) -> Result<(), Refusal>
    ensures row_after { after_closing result state.new row.new ≡ combination_of image.now index state.old row.old }
    ensures closing_within { ClosingWithin result }
{
    let mut low = [0i32; limits::NAME_LIMIT];
    let mut high = [0i32; limits::NAME_LIMIT];
    combination_in(image, index, state, row, &mut low, &mut high)
}
