// Assignments, cases and rules from their mirrored code, the last first.
ghost use Rattle.std.specs.Prelude.{◌≡◌, [], map, ◌≤◌, ◌<◌, length, drop};
ghost use Rattle.lexer.specs.Names.{table_names, Table};
ghost use Rattle.semantics.specs.Program.{Program};
ghost use Rattle.bytecode.specs.Translation.{Translatable, code_rules};
ghost use Rattle.st.specs.Printed.{statements_printed};
ghost use Rattle.st_program.specs.Written.{rule_in_st};
ghost use Rattle.st_writer.specs.Inner.Fronts.{Fronts};
ghost use Rattle.st_writer.specs.Inner.Mirrored.{mirrored};
ghost use Rattle.st_writer.specs.Inner.Statements.{pick_first, PrintsAssignment, PrintsCase, PrintsCases, PrintsRule, word_before};

use crate::{Stretch, operands};

// `v := e;`: the id of v stands at `at`, the code of e behind it.
fn assignment(
    text: &[u8],
    starts: &[usize],
    ends: &[usize],
    count: usize,
    code: &[u8],
    at: usize,
    out: &mut [u8],
    to: usize,
) -> Stretch
    requires table { Table starts.now ends.now count }
    requires at_in_bounds { at ≤ length code.now }
    ensures at_le_next { (at ≤ result.next) × (result.next ≤ length code.now) }
    ensures prints_assignment { PrintsAssignment (table_names text.now starts.now ends.now count) code.now at
        out.old out.new to result.next result.to }
{
    let u = leb128::unsigned_at(code, at);
    let Some((v, behind)) = u else {
        return Stretch { next: at, to };
    };
    let end = crate::bytes_before(out, to, b";\n");
    let value = operands::operand(text, starts, ends, count, code, behind, out, end);
    let sign = crate::bytes_before(out, value.to, b" := ");
    let target = crate::name_before(out, sign, text, starts, ends, count, v as usize);
    Stretch {
        next: value.next,
        to: target,
    }
}

// Whether a pick stands at a place.
fn pick_at(code: &[u8], at: usize) -> bool
    ensures { result ≡ pick_first (drop at code.now) }
{
    if code.len() <= at {
        return false;
    }
    match code[at] {
        20 => true,
        24 => true,
        25 => true,
        _ => false,
    }
}

// A case without its first word: pick, value, gate, condition.
fn case(
    text: &[u8],
    starts: &[usize],
    ends: &[usize],
    count: usize,
    code: &[u8],
    at: usize,
    out: &mut [u8],
    to: usize,
) -> Stretch
    requires table { Table starts.now ends.now count }
    requires at_in_bounds { at < length code.now }
    ensures at_lt_next { (at < result.next) × (result.next ≤ length code.now) }
    ensures prints_case { PrintsCase (table_names text.now starts.now ends.now count) code.now at
        out.old out.new to result.next result.to }
{
    let body = assignment(text, starts, ends, count, code, at + 1, out, to);
    let then = crate::bytes_before(out, body.to, b" THEN\n  ");
    let gate = body.next;
    if code.len() <= gate {
        return Stretch {
            next: gate,
            to: then,
        };
    }
    operands::operand(text, starts, ends, count, code, gate + 1, out, then)
}

// The first word of a case.
fn case_word(out: &mut [u8], to: usize, later: bool) -> usize
    ensures { Fronts (word_before later) out.old out.new to result }
{
    if later {
        return crate::bytes_before(out, to, b"ELSIF ");
    }
    crate::bytes_before(out, to, b"IF ")
}

// The cases of a rule: a case before which another stands begins ELSIF.
fn cases(
    text: &[u8],
    starts: &[usize],
    ends: &[usize],
    count: usize,
    code: &[u8],
    at: usize,
    out: &mut [u8],
    to: usize,
) -> Stretch
    requires table { Table starts.now ends.now count }
    requires at_in_bounds { at ≤ length code.now }
    ensures at_le_next { (at ≤ result.next) × (result.next ≤ length code.now) }
    ensures prints_cases { PrintsCases (table_names text.now starts.now ends.now count) code.now at
        out.old out.new to result.next result.to }
{
    let mut a = at;
    let mut place = to;
    // a `while`: the place moves on by a case's length, which is known when it is read
    while pick_at(code, a) {
        let one = case(text, starts, ends, count, code, a, out, place);
        let next = one.next;
        place = case_word(out, one.to, pick_at(code, next));
        a = next;
    }
    Stretch { next: a, to: place }
}

// A rule: its let or its settle stands at `at`.
fn rule(
    text: &[u8],
    starts: &[usize],
    ends: &[usize],
    count: usize,
    code: &[u8],
    at: usize,
    out: &mut [u8],
    to: usize,
) -> Stretch
    requires table { Table starts.now ends.now count }
    requires at_in_bounds { at < length code.now }
    ensures at_lt_next { (at < result.next) × (result.next ≤ length code.now) }
    ensures prints_rule { PrintsRule (table_names text.now starts.now ends.now count) code.now at
        out.old out.new to result.next result.to }
{
    let behind = at + 1;
    if code[at] == 21 {
        return assignment(text, starts, ends, count, code, behind, out, to);
    }
    let u = leb128::unsigned_at(code, behind);
    let Some((_, first)) = u else {
        return Stretch { next: behind, to };
    };
    let end = crate::bytes_before(out, to, b"END_IF;\n");
    cases(text, starts, ends, count, code, first, out, end)
}

// The statements of all rules, from their whole mirrored code.
pub fn rules_before(
    text: &[u8],
    starts: &[usize],
    ends: &[usize],
    count: usize,
    code: &[u8],
    out: &mut [u8],
    to: usize,
) -> usize
    requires { Table starts.now ends.now count }
    ensures { (p : Program) → Translatable p → p.timers ≡ [] → code.now ≡ mirrored (code_rules [] p.rules) []
        → Fronts (statements_printed (map (rule_in_st (table_names text.now starts.now ends.now count)) p.rules))
        out.old out.new to result }
{
    let mut a: usize = 0;
    let mut place = to;
    // a `while`: the place moves on by a rule's length, which is known when it is read
    while a < code.len() {
        let one = rule(text, starts, ends, count, code, a, out, place);
        place = one.to;
        a = one.next;
    }
    place
}
