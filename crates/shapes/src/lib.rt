// The shape of an image's states: how many numbers they have, which names are timers, and the range of each number.
#![tactic(auto)]

ghost use Rattle.std.specs.Prelude.{false, ◌≡◌, ℕ, ◌^◌, ◌≤◌, ◌<◌, pos, length, get_or, set, replicate};
ghost use Rattle.limits.specs.Limits.{name_limit, time_limit};
ghost use Rattle.limits.specs.Answer.{accepted};
ghost use Rattle.semantics.specs.Shape.{has_timer};
ghost use Rattle.bytecode.specs.Check.{check_of};
ghost use Rattle.bytecode.specs.Parts.{limits_from, limits_of};
ghost use Rattle.shapes.specs.Results.{ShapedBy};
ghost use Rattle.shapes.specs.Inner.Times.{PlacedOne, TimesStand};

use arith::bits;
use checker::Surveyed;
use limits::Refusal;

// The counts of inputs and of names, how many numbers a state has, which names are timers as bits (the lowest that of id 0), and the place where the code begins.
#[derive(Clone, Copy)]
pub struct Measured {
    pub inputs: usize,
    pub names: usize,
    pub size: usize,
    pub timers: u64,
    pub place: usize,
}

// A count, where there is room for it. `get_mut` promises nothing of the elements after a write through it.
fn put_count(out: &mut [i32], at: usize, n: u64)
    requires { n < 2 ^ 31 }
    ensures { out.new ≡ set out.old at (pos n) }
{
    if at < out.len() {
        out[at] = n as i32;
    }
}

// How many numbers a state has, and which names are timers.
#[derive(Clone, Copy)]
pub struct Times {
    pub size: usize,
    pub timers: u64,
}

// A timer's elapsed time stands behind those before it, from 0 to its limit; a name without a limit has none.
fn place_time(n: u64, id: usize, t: Times, low: &mut [i32], high: &mut [i32]) -> Times
    requires { (n < 2 ^ 31) × (id < name_limit) × (t.size < 2 ^ 31) }
    ensures { PlacedOne n id t low.old high.old low.new high.new result }
{
    if n == 0 {
        return t;
    }
    put_count(low, t.size, 0);
    put_count(high, t.size, n);
    Times {
        size: t.size + 1,
        timers: bits::with_bit(t.timers, id as u64),
    }
}

// Elapsed times stand behind the names, by timer id.
fn place_times(limits: &[u64], low: &mut [i32], high: &mut [i32]) -> Times
    requires { (length limits.now ≤ name_limit) × ((t : ℕ) → get_or limits.now t 0 ≤ time_limit) }
    ensures { TimesStand limits.now low.old high.old low.new high.new result }
{
    let mut t = Times {
        size: limits.len(),
        timers: 0,
    };
    for (i, limit) in limits.iter().enumerate() {
        t = place_time(*limit, i, t, low, high);
    }
    t
}

// The same for the limits that the code gives; `table` has a place for each name.
fn measure_times(code: &[u8], table: &mut [u64], low: &mut [i32], high: &mut [i32]) -> Times
    requires table_len_bound { length table.old ≤ name_limit }
    requires by_index { (t : ℕ) → get_or (limits_from code.now (length code.now) 0 table.old) t 0 ≤ time_limit }
    ensures { TimesStand (limits_from code.now (length code.now) 0 table.old) low.old high.old low.new high.new result }
{
    bytecode::timer_limits(code, table);
    place_times(table, low, high)
}

fn shape_times(
    image: &[u8],
    low: &mut [i32],
    high: &mut [i32],
    table: &mut [u64],
) -> Result<Measured, Refusal>
    requires { (check_of image.now ≡ accepted tt) × (table.old ≡ replicate name_limit 0) }
    ensures { ShapedBy image.now low.old high.old low.new high.new result }
{
    let mut start = [0i32; 1];
    match bytecode::header(image, low, high, &mut start) {
        Err(place) => Err(Refusal::BrokenImage(place)),
        Ok((inputs, names, place)) => {
            let t = measure_times(&image[place..], &mut table[..names], low, high);
            Ok(Measured {
                inputs,
                names,
                size: t.size,
                timers: t.timers,
                place,
            })
        }
    }
}

// Only an image with a timer pays for the table.
fn shape_timed(image: &[u8], low: &mut [i32], high: &mut [i32]) -> Result<Measured, Refusal>
    requires { check_of image.now ≡ accepted tt }
    ensures { ShapedBy image.now low.old high.old low.new high.new result }
{
    let mut table = [0u64; limits::NAME_LIMIT];
    shape_times(image, low, high, &mut table)
}

// Without timers a state has a number for each name.
fn shape_plain(image: &[u8], low: &mut [i32], high: &mut [i32]) -> Result<Measured, Refusal>
    requires { (check_of image.now ≡ accepted tt) × (has_timer (limits_of image.now) ≡ false) }
    ensures { ShapedBy image.now low.old high.old low.new high.new result }
{
    let mut start = [0i32; 1];
    match bytecode::header(image, low, high, &mut start) {
        Err(place) => Err(Refusal::BrokenImage(place)),
        Ok((inputs, names, place)) => Ok(Measured {
            inputs,
            names,
            size: names,
            timers: 0,
            place,
        }),
    }
}

// The check of an image, and the shape of its states: the low and high of each number are stored as far as there is room for them.
pub fn shape(image: &[u8], low: &mut [i32], high: &mut [i32]) -> Result<Measured, Refusal>
    ensures { ShapedBy image.now low.old high.old low.new high.new result }
{
    match checker::survey(image)? {
        Surveyed::Plain => shape_plain(image, low, high),
        Surveyed::Timed => shape_timed(image, low, high),
    }
}
