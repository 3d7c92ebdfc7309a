// The values held: instructions that put a value on top, or work on those on top.
ghost use Rattle.std.specs.Prelude.{◌≡◌};
ghost use Rattle.semantics.specs.Formula.{State};
ghost use Rattle.bytecode.specs.Instructions.{operation_of, constant, operation, negate as negation, negated};
ghost use Rattle.machine.specs.Inner.Memory.{held_of, step_outcome, Stack, Few};
ghost use Rattle.machine.specs.Inner.Groups.{truth_of, OnStack, loaded, related};

use crate::{Registers, Stepped, values};

pub fn push(vals: &mut [i32], m: Registers, v: i32) -> Stepped
    requires { Stack m vals.old }
    ensures on_stack { OnStack (constant v) m vals.old result vals.new }
    ensures few { Few result }
{
    let n = m.held;
    if limits::STACK_LIMIT <= n {
        return Stepped::Refused(limits::BROKEN_IMAGE);
    }
    vals[n] = v;
    Stepped::Next(Registers {
        held: n + 1,
        picked: m.picked,
        passing: false,
    })
}

// A current or previous value.
pub fn load(from: &[i32], vals: &mut [i32], m: Registers, id: u64) -> Stepped
    requires { Stack m vals.old }
    ensures t_after { (t : State) → step_outcome result vals.new t ≡ loaded from.now id m.picked (held_of vals.old m.held) t }
    ensures few { Few result }
{
    let i = id as usize;
    if from.len() <= i {
        return Stepped::Refused(limits::BROKEN_IMAGE);
    }
    push(vals, m, from[i])
}

// Two values taken, and their sum, difference, product, quotient or remainder put in their place.
pub fn calculate(vals: &mut [i32], m: Registers, code: u8) -> Stepped
    requires { Stack m vals.old }
    ensures on_stack { OnStack (operation (operation_of code)) m vals.old result vals.new }
    ensures few { Few result }
{
    let n = m.held;
    if n < 2 {
        return Stepped::Refused(limits::BROKEN_IMAGE);
    }
    let left = n - 2;
    let right = n - 1;
    let x = values::calculated(code, vals[left], vals[right]);
    let Some(v) = x else {
        return Stepped::Refused(limits::OVERFLOW);
    };
    vals[left] = v;
    Stepped::Next(Registers {
        held: right,
        picked: m.picked,
        passing: false,
    })
}

// Two values taken, and a yes-no put in their place.
pub fn relate(vals: &mut [i32], m: Registers, code: u8) -> Stepped
    requires { Stack m vals.old }
    ensures t_after { (t : State) → step_outcome result vals.new t ≡ related (truth_of code) m.picked (held_of vals.old m.held) t }
    ensures few { Few result }
{
    let n = m.held;
    if n < 2 {
        return Stepped::Refused(limits::BROKEN_IMAGE);
    }
    let left = n - 2;
    let right = n - 1;
    let v = values::bit_of(values::truth(code, vals[left], vals[right]));
    vals[left] = v;
    Stepped::Next(Registers {
        held: right,
        picked: m.picked,
        passing: false,
    })
}

pub fn negate(vals: &mut [i32], m: Registers) -> Stepped
    requires { Stack m vals.old }
    ensures on_stack { OnStack negation m vals.old result vals.new }
    ensures few { Few result }
{
    let n = m.held;
    if n == 0 {
        return Stepped::Refused(limits::BROKEN_IMAGE);
    }
    let top = n - 1;
    let x = arith::negated(vals[top]);
    let Some(v) = x else {
        return Stepped::Refused(limits::OVERFLOW);
    };
    vals[top] = v;
    Stepped::Next(Registers {
        held: n,
        picked: m.picked,
        passing: false,
    })
}

// The other yes-no.
pub fn invert(vals: &mut [i32], m: Registers) -> Stepped
    requires { Stack m vals.old }
    ensures on_stack { OnStack negated m vals.old result vals.new }
    ensures few { Few result }
{
    let n = m.held;
    if n == 0 {
        return Stepped::Refused(limits::BROKEN_IMAGE);
    }
    let top = n - 1;
    let v = values::bit_of(!values::is_yes(vals[top]));
    vals[top] = v;
    Stepped::Next(Registers {
        held: n,
        picked: m.picked,
        passing: false,
    })
}
