// One instruction of the walk that tells whether the code of an image is sound.
ghost use Rattle.std.specs.Prelude.{[], ◌≡◌, true, false, ℕ, ◌<◌, ◌^◌, get_or, set};
ghost use Rattle.std.proofs.Math.Option.{none};
ghost use Rattle.arith.specs.Inner.Flags.{flags_of};
ghost use Rattle.bytecode.specs.Instructions.{current as current_of, previous as previousOf, gate as gate_of, pick as pick_of, assign as assignOf, settle as settleOf, timer as timerOf, instruction_of};
ghost use Rattle.bytecode.specs.Signature.{truth};
ghost use Rattle.bytecode.specs.Check.{known as knownAs, advance as advance_of, unset as unset_of, fresh, opened};
ghost use Rattle.checker.specs.Inner.Walk.{sort_of, sorts_of, open_of, side_of, picks_of, known_of, advanced_known, Small, SmallAfter};
ghost use Rattle.checker.specs.Inner.Walk.{advance_by, pushed, kept, joined, only, outside};

use arith::bits;

// The sort of a value held.
pub const NUMBER: u64 = 0;

pub const TRUTH: u64 = 1;

// The side of a pick.
pub const CHANGING: u64 = 0;

pub const RISING: u64 = 1;

pub const FALLING: u64 = 2;

// What is known before an instruction: how many values are held, and their sorts as bits (the lowest that of the last held); 1 if
// a gate awaits its pick, else 0 (a number, so that the struct has no padding to copy); 1 plus three times the id whose picks await their
// settle plus the side of the last, or 0; which ids' current values may be used, as bits (the lowest that of id 0), and how many ids there are.
#[derive(Clone, Copy)]
pub struct Walk {
    pub held: u64,
    pub sorts: u64,
    pub gate: u64,
    pub picking: u64,
    pub known: u64,
    pub names: u64,
}

// A number more is held, never over 40. Here and below, `None` is what breaks soundness.
pub fn push(w: Walk) -> Option<Walk>
    requires { Small w }
    ensures result_value { advanced_known result ≡ pushed (known_of w) }
    ensures small_after { SmallAfter result }
{
    if (limits::STACK_LIMIT as u64) <= w.held {
        return None;
    }
    let mut k = w;
    k.held = w.held + 1;
    k.sorts = w.sorts * 2;
    Some(k)
}

pub fn is_known(w: Walk, id: u64) -> bool
    requires { Small w }
    ensures { result ≡ get_or (flags_of w.names w.known) id false }
{
    if w.names <= id {
        return false;
    }
    bits::bit(w.known, id)
}

pub fn current(w: Walk, id: u64) -> Option<Walk>
    requires { Small w }
    ensures result_value { advanced_known result ≡ advance_of (current_of id) (known_of w) }
    ensures small_after { SmallAfter result }
{
    if is_known(w, id) {
        return push(w);
    }
    None
}

pub fn previous(w: Walk, id: u64) -> Option<Walk>
    requires { Small w }
    ensures result_value { advanced_known result ≡ advance_of (previousOf id) (known_of w) }
    ensures small_after { SmallAfter result }
{
    if id < w.names {
        return push(w);
    }
    None
}

// The value on top has this sort.
pub fn keep(w: Walk, sort: u64) -> Option<Walk>
    requires { (Small w) × (sort < 2) }
    ensures result_value { advanced_known result ≡ kept (sort_of sort) (known_of w) }
    ensures small_after { SmallAfter result }
{
    if w.held == 0 {
        return None;
    }
    if w.sorts % 2 != sort {
        return None;
    }
    Some(w)
}

// Two values of a sort give way to one of the sort `made`.
pub fn join(w: Walk, sort: u64, made: u64) -> Option<Walk>
    requires { (Small w) × (sort < 2) × (made < 2) }
    ensures result_value { advanced_known result ≡ joined (sort_of sort) (sort_of made) (known_of w) }
    ensures small_after { SmallAfter result }
{
    if w.held < 2 {
        return None;
    }
    if w.sorts % 2 != sort {
        return None;
    }
    let below = w.sorts / 2;
    if below % 2 != sort {
        return None;
    }
    let mut k = w;
    k.held = w.held - 1;
    k.sorts = below / 2 * 2 + made;
    Some(k)
}

// Codes 10 to 18 do not stand between a gate and its pick.
pub fn test(w: Walk, sort: u64) -> Option<Walk>
    requires { (Small w) × (sort < 2) }
    ensures result_value { advanced_known result ≡ outside (open_of w.gate) (joined (sort_of sort) truth (known_of w)) }
    ensures small_after { SmallAfter result }
{
    if w.gate != 0 {
        return None;
    }
    join(w, sort, TRUTH)
}

pub fn invert(w: Walk) -> Option<Walk>
    requires { Small w }
    ensures result_value { advanced_known result ≡ outside (open_of w.gate) (kept truth (known_of w)) }
    ensures small_after { SmallAfter result }
{
    if w.gate != 0 {
        return None;
    }
    keep(w, TRUTH)
}

// Just one value is held, of this sort.
fn holds_only(w: Walk, sort: u64) -> bool
    requires { sort < 2 }
    ensures { result ≡ only (sort_of sort) (sorts_of w.held w.sorts) }
{
    if w.held != 1 {
        return false;
    }
    w.sorts % 2 == sort
}

pub fn gate(w: Walk) -> Option<Walk>
    requires { Small w }
    ensures result_value { advanced_known result ≡ advance_of gate_of (known_of w) }
    ensures small_after { SmallAfter result }
{
    if w.gate != 0 {
        return None;
    }
    if holds_only(w, TRUTH) {
        return Some(Walk {
            held: 0,
            sorts: 0,
            gate: 1,
            picking: w.picking,
            known: w.known,
            names: w.names,
        });
    }
    None
}

// A declared variable, no input, neither settled nor let.
fn is_unset(w: Walk, id: u64) -> bool
    requires { Small w }
    ensures { result ≡ unset_of (flags_of w.names w.known) id }
{
    if id >= w.names {
        return false;
    }
    !bits::bit(w.known, id)
}

// A pick of this id on a side may follow: picks are all changing, or some rising and then some falling.
fn may_pick(w: Walk, side: u64, id: u64) -> bool
    requires { (side < 3) × (id < 2 ^ 32) }
    ensures { result ≡ fresh (picks_of w.picking) (side_of side) id }
{
    if w.picking == 0 {
        return side < FALLING;
    }
    if w.picking == 3 * id + 1 + side {
        return true;
    }
    if side < FALLING {
        return false;
    }
    w.picking == 3 * id + 2
}

pub fn pick(w: Walk, side: u64, id: u64) -> Option<Walk>
    requires { (Small w) × (side < 3) × (id < 2 ^ 32) }
    ensures result_value { advanced_known result ≡ advance_of (pick_of (side_of side) id) (known_of w) }
    ensures small_after { SmallAfter result }
{
    if w.gate == 0 {
        return None;
    }
    if !holds_only(w, NUMBER) {
        return None;
    }
    if !is_unset(w, id) {
        return None;
    }
    if !may_pick(w, side, id) {
        return None;
    }
    Some(Walk {
        held: 0,
        sorts: 0,
        gate: 0,
        picking: 3 * id + 1 + side,
        known: w.known,
        names: w.names,
    })
}

// The variable has its rule.
fn ruled(w: Walk, id: u64) -> Walk
    requires { (Small w) × (unset_of (flags_of w.names w.known) id ≡ true) }
    ensures result_value { known_of result ≡ knownAs [] false none (set (flags_of w.names w.known) id true) }
    ensures small { Small result }
{
    Walk {
        held: 0,
        sorts: 0,
        gate: 0,
        picking: 0,
        known: bits::with_bit(w.known, id),
        names: w.names,
    }
}

pub fn assign(w: Walk, id: u64) -> Option<Walk>
    requires { Small w }
    ensures result_value { advanced_known result ≡ advance_of (assignOf id) (known_of w) }
    ensures small_after { SmallAfter result }
{
    if w.gate != 0 {
        return None;
    }
    if !holds_only(w, NUMBER) {
        return None;
    }
    if !is_unset(w, id) {
        return None;
    }
    if w.picking != 0 {
        return None;
    }
    Some(ruled(w, id))
}

// Picks of this id await their settle, and the last is not a rising one.
fn may_settle(w: Walk, id: u64) -> bool
    requires { id < 2 ^ 32 }
    ensures { result ≡ opened (picks_of w.picking) id }
{
    if w.picking == 3 * id + 1 {
        return true;
    }
    w.picking == 3 * id + 3
}

pub fn settle(w: Walk, id: u64) -> Option<Walk>
    requires { (Small w) × (id < 2 ^ 32) }
    ensures result_value { advanced_known result ≡ advance_of (settleOf id) (known_of w) }
    ensures small_after { SmallAfter result }
{
    if w.gate != 0 {
        return None;
    }
    if w.held != 0 {
        return None;
    }
    if !is_unset(w, id) {
        return None;
    }
    if !may_settle(w, id) {
        return None;
    }
    Some(ruled(w, id))
}

// A timer is as a let, but that it takes nothing; what else is asked of it goes by the ranges and the instruction before.
pub fn timer(w: Walk, id: u64) -> Option<Walk>
    requires { Small w }
    ensures by_index { (watched limit : ℕ) → advanced_known result ≡ advance_of (timerOf id watched limit) (known_of w) }
    ensures small_after { SmallAfter result }
{
    if w.gate != 0 {
        return None;
    }
    if 0 < w.held {
        return None;
    }
    if !is_unset(w, id) {
        return None;
    }
    if 0 < w.picking {
        return None;
    }
    Some(ruled(w, id))
}

// The instruction with this code byte and operand keeps soundness, or breaks it: one match on the code byte. Constants are in
// signed 32-bit range, since operands are below 2 ^ 32.
pub fn advance(code: u8, n: u64, w: Walk) -> Option<Walk>
    requires { (Small w) × (n < 2 ^ 32) }
    ensures result_value { advanced_known result ≡ advance_by (instruction_of code n) (known_of w) }
    ensures small_after { SmallAfter result }
{
    match code {
        1 => push(w),
        2 => current(w, n),
        3 => previous(w, n),
        4..=8 => join(w, NUMBER, NUMBER),
        9 => keep(w, NUMBER),
        10..=15 => test(w, NUMBER),
        16 => invert(w),
        17 => test(w, TRUTH),
        18 => test(w, TRUTH),
        19 => gate(w),
        20 => pick(w, CHANGING, n),
        21 => assign(w, n),
        22 => settle(w, n),
        24 => pick(w, RISING, n),
        25 => pick(w, FALLING, n),
        _ => None,
    }
}
