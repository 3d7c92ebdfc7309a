// A scan in instalments, on the lent memory of `paused`.
#![tactic(auto)]

ghost use Rattle.std.specs.Prelude.{◌≡◌, cond, ◌≤◌, leb, length};
ghost use Rattle.paused.specs.Memory.{layout_of};
ghost use Rattle.paused.specs.Responses.{ResponseWithin};
ghost use Rattle.resumable.specs.Inner.Room.{RoomToRun, ReadyToRun, UnderWay, Short, Keepable};
ghost use Rattle.limits.specs.Limits.{image_limit, stack_limit, name_limit, state_limit};
ghost use Rattle.arith.specs.Values.{ok};
ghost use Rattle.machine.specs.Inner.Memory.{machine_of, step_outcome, ran_of, Few};
ghost use Rattle.resumable.specs.Instalment.{after_call, ran_from, left_after, instalment, advance_of};

use machine::{Executed, Registers, Stepped, Timing, lists};
use paused::{Checkpoint, Layout, Response};

// At most n instructions from where the scan stopped, on copies of the current values and the values held.
fn run_from(
    memory: &[i32],
    code: &[u8],
    p: Checkpoint,
    layout: Layout,
    n: usize,
    cur: &mut [i32],
    vals: &mut [i32],
) -> Executed
    requires { RoomToRun memory.now cur.old vals.old p layout.size }
    ensures cur_after { ran_of result vals.new cur.new ≡ ran_from code.now n p layout memory.now }
    ensures steps_le_n { result.steps ≤ n }
{
    let size = layout.size;
    lists::fill(cur, &memory[paused::CURRENT..paused::CURRENT + size]);
    lists::fill(vals, &memory[paused::HELD..paused::HELD_END]);
    let m = Registers {
        held: p.held,
        picked: p.picked,
        passing: p.passing,
    };
    let timing = Timing {
        names: layout.names,
        timers: layout.timers,
        millis: layout.millis,
    };
    machine::run(
        code,
        &memory[paused::LOW..paused::LOW + size],
        &memory[paused::HIGH..paused::HIGH + size],
        &memory[paused::START..paused::START + size],
        cur,
        vals,
        timing,
        p.place,
        m,
        n,
    )
}

// The same where a state has no elapsed times.
fn run_untimed_from(
    memory: &[i32],
    code: &[u8],
    p: Checkpoint,
    layout: Layout,
    n: usize,
    cur: &mut [i32],
    vals: &mut [i32],
) -> Executed
    requires room_to_run { RoomToRun memory.now cur.old vals.old p layout.size }
    requires size_value { layout.size ≡ layout.names }
    ensures cur_after { ran_of result vals.new cur.new ≡ ran_from code.now n p layout memory.now }
    ensures steps_le_n { result.steps ≤ n }
{
    let size = layout.size;
    lists::fill(cur, &memory[paused::CURRENT..paused::CURRENT + size]);
    lists::fill(vals, &memory[paused::HELD..paused::HELD_END]);
    let m = Registers {
        held: p.held,
        picked: p.picked,
        passing: p.passing,
    };
    machine::run_untimed(
        code,
        &memory[paused::LOW..paused::LOW + size],
        &memory[paused::HIGH..paused::HIGH + size],
        &memory[paused::START..paused::START + size],
        cur,
        vals,
        size,
        p.place,
        m,
        n,
    )
}

// At the end of the code or under way.
pub fn phase_at(len: usize, place: usize) -> usize
    ensures { result ≡ cond (leb len place) 2 1 }
{
    if len <= place {
        return paused::AT_END;
    }
    paused::UNDER_WAY
}

// What a run that was not refused left, written back.
fn keep_going(
    memory: &mut [i32],
    before: usize,
    len: usize,
    n: usize,
    place: usize,
    m: Registers,
    cur: &[i32],
    vals: &[i32],
)
    requires keepable { Keepable memory.old cur.now vals.now before n place }
    requires held_le_stack_limit { m.held ≤ stack_limit }
    ensures { memory.new ≡ left_after before len n place (ok (machine_of m vals.now cur.now)) memory.old }
{
    let held = m.held;
    lists::store(memory, paused::CURRENT, cur);
    lists::store(memory, paused::HELD, &vals[..held]);
    let p = Checkpoint {
        phase: phase_at(len, place),
        number: 0,
        place,
        steps: before + n,
        held,
        picked: m.picked,
        passing: m.passing,
    };
    paused::store_checkpoint(memory, p);
}

// What a run left, written back; of a refused one only its progress.
fn keep(
    memory: &mut [i32],
    before: usize,
    len: usize,
    n: usize,
    place: usize,
    last: Stepped,
    cur: &[i32],
    vals: &[i32],
)
    requires keepable { Keepable memory.old cur.now vals.now before n place }
    requires few { Few last }
    ensures { memory.new ≡ left_after before len n place (step_outcome last vals.now cur.now) memory.old }
{
    match last {
        Stepped::Next(m) => keep_going(memory, before, len, n, place, m, cur, vals),
        Stepped::Refused(number) => {
            let p = Checkpoint {
                phase: paused::STOPPED,
                number,
                place,
                steps: before + n,
                held: 0,
                picked: false,
                passing: false,
            };
            paused::store_checkpoint(memory, p);
        }
    }
}

// The instalment of a scan under way, on room for its current values and the values held.
fn advance_by(
    memory: &mut [i32],
    code: &[u8],
    p: Checkpoint,
    layout: Layout,
    n: usize,
    cur: &mut [i32],
    vals: &mut [i32],
) -> usize
    requires room_to_run { RoomToRun memory.old cur.old vals.old p layout.size }
    requires short { Short code.now n p }
    ensures memory_after { after_call (Response.Done result) memory.new ≡ instalment code.now n memory.old p layout }
    ensures upper_bound { result ≤ n }
{
    let ran = run_from(memory, code, p, layout, n, cur, vals);
    let done = ran.steps;
    let last = ran.last;
    keep(
        memory,
        p.steps,
        code.len(),
        done,
        ran.place,
        last,
        cur,
        vals,
    );
    done
}

// The same where a state has no elapsed times.
fn advance_untimed_by(
    memory: &mut [i32],
    code: &[u8],
    p: Checkpoint,
    layout: Layout,
    n: usize,
    cur: &mut [i32],
    vals: &mut [i32],
) -> usize
    requires room_to_run { RoomToRun memory.old cur.old vals.old p layout.size }
    requires short { Short code.now n p }
    requires size_value { layout.size ≡ layout.names }
    ensures memory_after { after_call (Response.Done result) memory.new ≡ instalment code.now n memory.old p layout }
    ensures upper_bound { result ≤ n }
{
    let ran = run_untimed_from(memory, code, p, layout, n, cur, vals);
    let done = ran.steps;
    let last = ran.last;
    keep(
        memory,
        p.steps,
        code.len(),
        done,
        ran.place,
        last,
        cur,
        vals,
    );
    done
}

// On room for the most numbers that a state has. The layout is read here: an instalment without elapsed times does not pay for it.
fn timed_in(
    memory: &mut [i32],
    code: &[u8],
    p: Checkpoint,
    n: usize,
    cur: &mut [i32],
    vals: &mut [i32],
) -> usize
    requires cur_len { (length cur.old ≡ state_limit) × (length vals.old ≡ stack_limit) }
    requires ready_to_run { ReadyToRun memory.old p }
    requires short { Short code.now n p }
    ensures memory_after { after_call (Response.Done result) memory.new ≡ instalment code.now n memory.old p (layout_of memory.old) }
    ensures upper_bound { result ≤ n }
{
    let layout = paused::layout_in(memory);
    let size = layout.size;
    advance_by(memory, code, p, layout, n, &mut cur[..size], vals)
}

// On room for as many names as there may be.
fn untimed_in(
    memory: &mut [i32],
    code: &[u8],
    p: Checkpoint,
    layout: Layout,
    n: usize,
    cur: &mut [i32],
    vals: &mut [i32],
) -> usize
    requires cur_len { (length cur.old ≡ name_limit) × (length vals.old ≡ stack_limit) }
    requires ready_to_run { ReadyToRun memory.old p }
    requires short { Short code.now n p }
    requires size_value { (layout.size ≡ layout.names) × (layout.size ≤ name_limit) }
    ensures memory_after { after_call (Response.Done result) memory.new ≡ instalment code.now n memory.old p layout }
    ensures upper_bound { result ≤ n }
{
    let size = layout.size;
    advance_untimed_by(memory, code, p, layout, n, &mut cur[..size], vals)
}

fn advance_timed(memory: &mut [i32], code: &[u8], p: Checkpoint, n: usize) -> usize
    requires ready_to_run { ReadyToRun memory.old p }
    requires short { Short code.now n p }
    ensures memory_after { after_call (Response.Done result) memory.new ≡ instalment code.now n memory.old p (layout_of memory.old) }
    ensures upper_bound { result ≤ n }
{
    let mut cur = [0i32; limits::STATE_LIMIT];
    let mut vals = [0i32; limits::STACK_LIMIT];
    timed_in(memory, code, p, n, &mut cur, &mut vals)
}

// Half the room is cleared.
fn advance_untimed(
    memory: &mut [i32],
    code: &[u8],
    p: Checkpoint,
    layout: Layout,
    n: usize,
) -> usize
    requires ready_to_run { ReadyToRun memory.old p }
    requires short { Short code.now n p }
    requires size_value { (layout.size ≡ layout.names) × (layout.size ≤ name_limit) }
    ensures memory_after { after_call (Response.Done result) memory.new ≡ instalment code.now n memory.old p layout }
    ensures upper_bound { result ≤ n }
{
    let mut cur = [0i32; limits::NAME_LIMIT];
    let mut vals = [0i32; limits::STACK_LIMIT];
    untimed_in(memory, code, p, layout, n, &mut cur, &mut vals)
}

// At most so many steps of the scan under way. A function of its own: among more tests the compiler takes the instalment for cold.
fn advance_scan(paused: &mut [i32], image: &[u8], p: Checkpoint, steps: usize) -> usize
    requires { UnderWay paused.old p steps }
    ensures paused_after { after_call (Response.Done result) paused.new ≡ advance_of image.now steps paused.old }
    ensures upper_bound { result ≤ image_limit }
{
    let layout = paused::layout_in(paused);
    let base = layout.base;
    let size = layout.size;
    if image.len() != layout.image {
        return 0;
    }
    if image.len() - base <= p.place {
        return 0;
    }
    let n = steps.min(limits::IMAGE_LIMIT);
    if size == layout.names {
        return advance_untimed(paused, &image[base..], p, layout, n);
    }
    advance_timed(paused, &image[base..], p, n)
}

pub fn advance(paused: &mut [i32], image: &[u8], steps: usize) -> Response
    ensures paused_after { after_call result paused.new ≡ advance_of image.now steps paused.old }
    ensures response_within { ResponseWithin image_limit result }
{
    if paused.len() != limits::PAUSED_LENGTH {
        return Response::Idle;
    }
    let p = paused::checkpoint_in(paused);
    let phase = p.phase;
    if phase == paused::NO_SCAN {
        return Response::Idle;
    }
    if phase != paused::UNDER_WAY {
        return Response::Done(0);
    }
    if steps == 0 {
        return Response::Done(0);
    }
    let done = advance_scan(paused, image, p, steps);
    Response::Done(done)
}
