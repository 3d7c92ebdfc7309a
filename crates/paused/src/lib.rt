// The memory of a paused scan and of the row that waits: 640 numbers, lent as one slice. Whatever it holds, each number read from it is clipped.
#![tactic(auto)]

ghost use Rattle.std.specs.Prelude.{◌≡◌, ◌≤◌, ◌<◌, ◌^◌, min, pos, length};
ghost use Rattle.std.proofs.lemmas.List.Edits.{sets};
ghost use Rattle.limits.specs.Limits.{image_limit, paused_length};
ghost use Rattle.paused.specs.Memory.{part_limit, clipped, timers_at, waiting_length, checkpoint_of, layout_of, checkpoint_cells, timer_cells, with_layout, flag_of};
ghost use Rattle.paused.specs.Responses.{packed, packed_response, ResponseWithin};
ghost use Rattle.paused.specs.Inner.Small.{SmallCheckpoint, SmallLayout};

use machine::lists;

// Places of the memory: what a scan has done, its image and names, the row that waits, and lists.
pub const CHECKPOINT: usize = 0;

pub const SHAPE: usize = 8;

pub const WAITING: usize = 13;

pub const ROW: usize = 16;

pub const HELD: usize = 80;

const TIMERS: usize = 120;

pub const START: usize = 128;

pub const CURRENT: usize = 256;

pub const LOW: usize = 384;

pub const HIGH: usize = 512;

// The place behind the values held.
pub const HELD_END: usize = HELD + limits::STACK_LIMIT;

// Places of a checkpoint's parts, and of a layout's.
const PHASE: usize = CHECKPOINT;

const NUMBER: usize = CHECKPOINT + 1;

const PLACE: usize = CHECKPOINT + 2;

const STEPS: usize = CHECKPOINT + 3;

const HELD_COUNT: usize = CHECKPOINT + 4;

const PICKED: usize = CHECKPOINT + 5;

const PASSING: usize = CHECKPOINT + 6;

const IMAGE: usize = SHAPE;

const BASE: usize = SHAPE + 1;

const SIZE: usize = SHAPE + 2;

const NAMES: usize = SHAPE + 3;

const MILLIS: usize = SHAPE + 4;

// The timers, one bit a name, are kept as numbers of 16 bits.
const PART: u64 = 65536;

const PART_LIMIT: usize = 65535;

// Phases: no scan, under way, at the end of the code, refused with a number.
pub const NO_SCAN: usize = 0;

pub const UNDER_WAY: usize = 1;

pub const AT_END: usize = 2;

pub const STOPPED: usize = 3;

// The largest number of a refusal.
const LARGEST_NUMBER: usize = 30;

// 2^56 and 2^24.
const NUMBER_FACTOR: u64 = 72057594037927936;

const PLACE_FACTOR: u64 = 16777216;

// The phase, a refusal's number, the place in the code, the steps done, and the registers.
#[derive(Clone, Copy)]
pub struct Checkpoint {
    pub phase: usize,
    pub number: u8,
    pub place: usize,
    pub steps: usize,
    pub held: usize,
    pub picked: bool,
    pub passing: bool,
}

// The length of the image, the place of its code, the numbers of a state, the names, the milliseconds, and which names are timers, one bit a name.
#[derive(Clone, Copy)]
pub struct Layout {
    pub image: usize,
    pub base: usize,
    pub size: usize,
    pub names: usize,
    pub millis: u64,
    pub timers: u64,
}

// The answer of a call: steps; a refusal's number, place and steps; a scan that is not finished; neither scan nor row. The refusal's number is
// a u8 and no `Refusal`: it was kept in the caller's memory, which may hold any.
#[derive(Clone, Copy)]
pub enum Response {
    Done(usize),
    Refused(u8, usize, usize),
    Unfinished(usize),
    Idle,
}

// As one number: the refusal's number · 2^56 + its place · 2^24 + a count.
pub fn pack(number: u8, place: usize, count: u64) -> u64
    requires { (place < 2 ^ 32) × (count < 2 ^ 24) }
    ensures { result ≡ packed number place count }
{
    u64::from(number) * NUMBER_FACTOR + place as u64 * PLACE_FACTOR + count
}

pub fn pack_response(r: Response) -> u64
    requires { ResponseWithin image_limit r }
    ensures { result ≡ packed_response r }
{
    match r {
        Response::Done(steps) => pack(0, 0, steps as u64),
        Response::Refused(number, place, steps) => pack(number, place, steps as u64),
        Response::Unfinished(steps) => pack(limits::UNFINISHED_NUMBER, 0, steps as u64),
        Response::Idle => pack(limits::IDLE_NUMBER, 0, 0),
    }
}

// A number of the memory, at most `most`.
fn cell(memory: &[i32], i: usize, most: usize) -> usize
    requires { i < length memory.now }
    ensures { result ≡ clipped memory.now i most }
{
    let n = arith::count(memory[i]);
    (n as usize).min(most)
}

pub fn checkpoint_in(memory: &[i32]) -> Checkpoint
    requires { length memory.now ≡ paused_length }
    ensures { result ≡ checkpoint_of memory.now }
{
    Checkpoint {
        phase: cell(memory, PHASE, STOPPED),
        number: cell(memory, NUMBER, LARGEST_NUMBER) as u8,
        place: cell(memory, PLACE, limits::IMAGE_LIMIT),
        steps: cell(memory, STEPS, limits::IMAGE_LIMIT),
        held: cell(memory, HELD_COUNT, limits::STACK_LIMIT),
        picked: cell(memory, PICKED, 1) == 1,
        passing: cell(memory, PASSING, 1) == 1,
    }
}

// A number of 16 bits.
fn part(memory: &[i32], i: usize) -> u64
    requires { i < length memory.now }
    ensures { (result ≡ clipped memory.now i part_limit) × (result ≤ part_limit) }
{
    cell(memory, i, PART_LIMIT) as u64
}

// The timers, one bit a name; none where a state has no more numbers than names.
fn timers_in(memory: &[i32], size: usize, names: usize) -> u64
    requires { length memory.now ≡ paused_length }
    ensures { result ≡ timers_at size names memory.now }
{
    if size == names {
        return 0;
    }
    let a = part(memory, TIMERS);
    let b = part(memory, TIMERS + 1);
    let c = part(memory, TIMERS + 2);
    let d = part(memory, TIMERS + 3);
    a + PART * (b + PART * (c + PART * d))
}

pub fn layout_in(memory: &[i32]) -> Layout
    requires { length memory.now ≡ paused_length }
    ensures { result ≡ layout_of memory.now }
{
    let image = cell(memory, IMAGE, limits::IMAGE_LIMIT);
    let size = cell(memory, SIZE, limits::STATE_LIMIT);
    let names = cell(memory, NAMES, limits::NAME_LIMIT);
    Layout {
        image,
        base: cell(memory, BASE, image),
        size,
        names,
        millis: arith::count(memory[MILLIS]),
        timers: timers_in(memory, size, names),
    }
}

// 0 if no row waits, else one more than its length.
pub fn waiting(memory: &[i32]) -> usize
    requires { length memory.now ≡ paused_length }
    ensures { result ≡ waiting_length memory.now }
{
    cell(memory, WAITING, limits::NAME_LIMIT + 1)
}

// A count as a number; no `try_from`, since what it is given is below 2 ^ 31.
fn number(x: usize) -> i32
    requires { x < 2 ^ 31 }
    ensures { result ≡ pos x }
{
    x as i32
}

pub fn store_checkpoint(memory: &mut [i32], p: Checkpoint)
    requires memory_len { length memory.old ≡ paused_length }
    requires small_checkpoint { SmallCheckpoint p }
    ensures { memory.new ≡ sets memory.old 0 (checkpoint_cells p) }
{
    let cells = [
        number(p.phase),
        i32::from(p.number),
        number(p.place),
        number(p.steps),
        number(p.held),
        i32::from(p.picked),
        i32::from(p.passing),
    ];
    lists::store(memory, CHECKPOINT, &cells);
}

// The timers, in four numbers of 16 bits.
fn store_timers(memory: &mut [i32], timers: u64)
    requires { length memory.old ≡ paused_length }
    ensures { memory.new ≡ sets memory.old 120 (timer_cells timers) }
{
    let second = timers / PART;
    let third = second / PART;
    let cells = [
        (timers % PART) as i32,
        (second % PART) as i32,
        (third % PART) as i32,
        (third / PART % PART) as i32,
    ];
    lists::store(memory, TIMERS, &cells);
}

pub fn store_layout(memory: &mut [i32], s: Layout)
    requires memory_len { length memory.old ≡ paused_length }
    requires small_layout { SmallLayout s }
    ensures { memory.new ≡ with_layout s memory.old }
{
    let cells = [
        number(s.image),
        number(s.base),
        number(s.size),
        number(s.names),
        number(s.millis as usize),
    ];
    lists::store(memory, SHAPE, &cells);
    store_timers(memory, s.timers);
}
