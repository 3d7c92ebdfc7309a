// A variable: the gate before a case, and the instructions that give its value.
ghost use Rattle.std.specs.Prelude.{◌≡◌, List, ◌≤◌, ℤ, length};
ghost use Rattle.limits.specs.Limits.{stack_limit};
ghost use Rattle.semantics.specs.ReferenceScan.{moves, stays};
ghost use Rattle.semantics.specs.Formula.{State};
ghost use Rattle.semantics.specs.Shape.{Setting};
ghost use Rattle.bytecode.specs.Instructions.{gate as gating, pick as picking, assign as assigning, settle as settling};
ghost use Rattle.machine.specs.Step.{perform};
ghost use Rattle.machine.specs.Inner.Memory.{held_of, step_outcome, RangesIn, Stack, Few, OneEach};
ghost use Rattle.machine.specs.Inner.Groups.{OnStack};
ghost use Rattle.machine.specs.Inner.Sides.{pick_side};

use crate::{Registers, Stepped, values};

// The side of the previous value on which a pick's value has to lie: not equal to it, above it, or below it.
#[derive(Clone, Copy)]
pub enum Side {
    Changing,
    Rising,
    Falling,
}

impl Side {
    // Whether a value lies there.
    fn moves(self, before: i32, v: i32) -> bool
        ensures { result ≡ moves (pick_side self) before v }
    {
        match self {
            Side::Changing => v != before,
            Side::Rising => before < v,
            Side::Falling => v < before,
        }
    }

    // The refusal of one that does not.
    fn stays(self) -> u8
        ensures { result ≡ stays (pick_side self) }
    {
        match self {
            Side::Changing => limits::EQUAL_TO_PREVIOUS,
            Side::Rising | Side::Falling => limits::WRONG_DIRECTION,
        }
    }
}

// A false condition passes over what stands up to the next pick; a true one after a pick is refused.
pub fn gate(vals: &[i32], m: Registers) -> Stepped
    requires { Stack m vals.now }
    ensures on_stack { OnStack gating m vals.now result vals.now }
    ensures few { Few result }
{
    let n = m.held;
    if n == 0 {
        return Stepped::Refused(limits::BROKEN_IMAGE);
    }
    let top = n - 1;
    let picked = m.picked;
    if !values::is_yes(vals[top]) {
        return Stepped::Next(Registers {
            held: top,
            picked,
            passing: true,
        });
    }
    if picked {
        return Stepped::Refused(limits::SECOND_TRUE_CASE);
    }
    Stepped::Next(Registers {
        held: top,
        picked: false,
        passing: false,
    })
}

// The value on top becomes the current value of a name, if it lies in the name's range.
pub fn assign(
    low: &[i32],
    high: &[i32],
    cur: &mut [i32],
    vals: &[i32],
    m: Registers,
    id: u64,
) -> Stepped
    requires { Stack m vals.now × (length high.now ≡ length low.now) × (length cur.old ≡ length low.now) }
    ensures cur_after { (ns : Setting) (s : State) → RangesIn ns.ranges low.now high.now
        → step_outcome result vals.now cur.new
        ≡ perform ns s (assigning id) m.picked (held_of vals.now m.held) cur.old }
    ensures few { Few result }
{
    let n = m.held;
    if n == 0 {
        return Stepped::Refused(limits::BROKEN_IMAGE);
    }
    let top = n - 1;
    let i = id as usize;
    if low.len() <= i {
        return Stepped::Refused(limits::BROKEN_IMAGE);
    }
    let v = vals[top];
    if !values::in_range(low[i], high[i], v) {
        return Stepped::Refused(limits::VALUE_OUT_OF_RANGE);
    }
    cur[i] = v;
    Stepped::Next(Registers {
        held: top,
        picked: m.picked,
        passing: false,
    })
}

// The same, refused first if it does not lie on the side wanted of the previous value.
pub fn pick(
    side: Side,
    low: &[i32],
    high: &[i32],
    prev: &[i32],
    cur: &mut [i32],
    vals: &[i32],
    m: Registers,
    id: u64,
) -> Stepped
    requires stack { Stack m vals.now }
    requires one_each { OneEach low.now high.now prev.now cur.old }
    ensures cur_after { (ns : Setting) → RangesIn ns.ranges low.now high.now
        → step_outcome result vals.now cur.new
        ≡ perform ns prev.now (picking (pick_side side) id) m.picked (held_of vals.now m.held) cur.old }
    ensures few { Few result }
{
    let n = m.held;
    if n == 0 {
        return Stepped::Refused(limits::BROKEN_IMAGE);
    }
    let top = n - 1;
    let i = id as usize;
    if prev.len() <= i {
        return Stepped::Refused(limits::BROKEN_IMAGE);
    }
    if !side.moves(prev[i], vals[top]) {
        return Stepped::Refused(side.stays());
    }
    let k = Registers {
        held: n,
        picked: true,
        passing: false,
    };
    assign(low, high, cur, vals, k, id)
}

// Keeps the previous value if nothing was picked.
pub fn settle(prev: &[i32], cur: &mut [i32], m: Registers, id: u64) -> Stepped
    requires { (m.held ≤ stack_limit) × (length cur.old ≡ length prev.now) }
    ensures cur_after { (ns : Setting) (vs : List ℤ) → length ns.ranges ≡ length prev.now → step_outcome result vs cur.new
        ≡ perform ns prev.now (settling id) m.picked (held_of vs m.held) cur.old }
    ensures few { Few result }
{
    let i = id as usize;
    if prev.len() <= i {
        return Stepped::Refused(limits::BROKEN_IMAGE);
    }
    let k = Registers {
        held: m.held,
        picked: false,
        passing: false,
    };
    if m.picked {
        return Stepped::Next(k);
    }
    cur[i] = prev[i];
    Stepped::Next(k)
}
