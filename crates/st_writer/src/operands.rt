// An expression or a condition from its mirrored code.
ghost use Rattle.std.specs.Prelude.{◌≡◌, List, ◌++◌, ℕ, ◌≤◌, length};
ghost use Rattle.lexer.specs.Names.{table_names, Table};
ghost use Rattle.st_writer.specs.Inner.Fronts.{Fronts};
ghost use Rattle.st_writer.specs.Inner.Operands.{constant_printed, leaf_printed, is_prefix, prefix_bytes, PrintsLeaf, PrintsOperand};

use crate::Stretch;

// A constant by its number in the image; the grammar writes no negative one.
fn constant_before(out: &mut [u8], to: usize, n: u64) -> usize
    ensures { Fronts (constant_printed n) out.old out.new to result }
{
    if n % 2 == 0 {
        return crate::decimal_before(out, to, n / 2);
    }
    let close = crate::byte_before(out, to, 41);
    let digits = crate::decimal_before(out, close, n / 2 + 1);
    crate::bytes_before(out, digits, b"(-")
}

// What an instruction without operands prints.
fn value_before(
    text: &[u8],
    starts: &[usize],
    ends: &[usize],
    count: usize,
    op: u8,
    n: u64,
    out: &mut [u8],
    to: usize,
) -> usize
    requires { Table starts.now ends.now count }
    ensures { Fronts (leaf_printed (table_names text.now starts.now ends.now count) op n)
        out.old out.new to result }
{
    if op == 1 {
        return constant_before(out, to, n);
    }
    let first = crate::name_before(out, to, text, starts, ends, count, n as usize);
    if op == 2 {
        return first;
    }
    crate::byte_before(out, first, 95)
}

// The same, its number read at `at`.
fn leaf(
    text: &[u8],
    starts: &[usize],
    ends: &[usize],
    count: usize,
    code: &[u8],
    op: u8,
    at: usize,
    out: &mut [u8],
    to: usize,
) -> Stretch
    requires table { Table starts.now ends.now count }
    requires at_in_bounds { at ≤ length code.now }
    ensures at_le_next { (at ≤ result.next) × (result.next ≤ length code.now) }
    ensures prints_leaf { PrintsLeaf (table_names text.now starts.now ends.now count) code.now op at
        out.old out.new to result.next result.to }
{
    let u = leb128::unsigned_at(code, at);
    let Some((n, next)) = u else {
        return Stretch { next: at, to };
    };
    let first = value_before(text, starts, ends, count, op, n, out, to);
    Stretch { next, to: first }
}

// Whether an operation has one operand: a minus or NOT.
fn is_prefix(op: u8) -> bool
    ensures { result ≡ is_prefix op }
{
    if op == 9 {
        return true;
    }
    op == 16
}

// What stands before that operand.
fn prefix_before(out: &mut [u8], to: usize, op: u8) -> usize
    ensures { Fronts (λ (l : List ℕ). prefix_bytes op ++ l) out.old out.new to result }
{
    if op == 9 {
        return crate::bytes_before(out, to, b"(-");
    }
    crate::bytes_before(out, to, b"(NOT ")
}

// The operand whose code stands at `at`. It goes along the left operands; `pending` counts the brackets to be opened before the last of them.
pub fn operand(
    text: &[u8],
    starts: &[usize],
    ends: &[usize],
    count: usize,
    code: &[u8],
    at: usize,
    out: &mut [u8],
    to: usize,
) -> Stretch
    requires table { Table starts.now ends.now count }
    requires at_in_bounds { at ≤ length code.now }
    ensures at_le_next { (at ≤ result.next) × (result.next ≤ length code.now) }
    ensures prints_operand { PrintsOperand (table_names text.now starts.now ends.now count) code.now at
        out.old out.new to result.next result.to }
{
    let mut a = at;
    let mut place = to;
    let mut pending: usize = 0;
    // a `loop`: the code byte that is read says whether the operand ends there
    loop {
        if code.len() <= a {
            return Stretch { next: a, to: place };
        }
        let op = code[a];
        let behind = a + 1;
        if op <= 3 {
            let end = leaf(text, starts, ends, count, code, op, behind, out, place);
            let first = crate::opens_before(out, end.to, pending);
            return Stretch {
                next: end.next,
                to: first,
            };
        }
        let close = crate::byte_before(out, place, 41);
        let right = operand(text, starts, ends, count, code, behind, out, close);
        if is_prefix(op) {
            let sign = prefix_before(out, right.to, op);
            let first = crate::opens_before(out, sign, pending);
            return Stretch {
                next: right.next,
                to: first,
            };
        }
        place = crate::sign_before(out, right.to, op);
        a = right.next;
        pending += 1;
    }
}
