// The parts of Structured Text around the rules, put directly before a place: the sections VAR_INPUT and VAR, and the lines that save the
// previous values.
#![tactic(auto)]

ghost use Rattle.std.specs.Prelude.{◌≡◌, List, [], ◌++◌, map, ℕ, ◌≤◌, length, get_or, take, drop};
ghost use Rattle.lexer.specs.Bytes.{bytes};
ghost use Rattle.lexer.specs.Names.{table_names, Table};
ghost use Rattle.trace_text.specs.Output.{decimal_of};
ghost use Rattle.st.specs.Printed.{statement_printed, statements_printed};
ghost use Rattle.st_program.specs.Written.{saving_line};
ghost use Rattle.st_writer.specs.Inner.Fronts.{Fronts};
ghost use Rattle.st_sections.specs.Inner.Lines.{declarations_of, line_for, with_previous, line_printed, lines_printed, inputs_printed, variables_printed, sections_printed};

// The shortest decimal, `-` for negative numbers.
fn signed_before(out: &mut [u8], to: usize, z: i32) -> usize
    ensures { Fronts (λ (l : List ℕ). decimal_of z ++ l) out.old out.new to result }
{
    let digits = st_writer::decimal_before(out, to, u64::from(z.unsigned_abs()));
    if 0 <= z {
        return digits;
    }
    st_writer::byte_before(out, digits, 45)
}

// A line of a section: a name's, or that of its previous value.
fn line_before(
    text: &[u8],
    starts: &[usize],
    ends: &[usize],
    count: usize,
    id: usize,
    start: i32,
    previous: bool,
    out: &mut [u8],
    to: usize,
) -> usize
    requires { Table starts.now ends.now count }
    ensures { Fronts (line_printed (line_for previous (record { name = get_or (table_names text.now starts.now ends.now count) id []; start = start })))
        out.old out.new to result }
{
    let end = st_writer::bytes_before(out, to, b";\n");
    let number = signed_before(out, end, start);
    let sort = st_writer::bytes_before(out, number, b" : DINT := ");
    let name = st_writer::name_before(out, sort, text, starts, ends, count, id);
    if previous {
        return st_writer::bytes_before(out, name, b"  _");
    }
    st_writer::bytes_before(out, name, b"  ")
}

// The lines of the inputs, the first names of the table, or those of their previous values.
fn lines_before(
    text: &[u8],
    starts: &[usize],
    ends: &[usize],
    values: &[i32],
    inputs: usize,
    count: usize,
    previous: bool,
    out: &mut [u8],
    to: usize,
) -> usize
    requires table { Table starts.now ends.now count }
    requires inputs_le_count { (inputs ≤ count) × (count ≤ length values.now) }
    ensures { Fronts (lines_printed (map (line_for previous) (take inputs (declarations_of (table_names text.now starts.now ends.now count) values.now))))
        out.old out.new to result }
{
    let mut place = to;
    for i in (0..inputs).rev() {
        let z = values[i];
        place = line_before(text, starts, ends, count, i, z, previous, out, place);
    }
    place
}

// The lines of the names from `first` on, each followed by that of its previous value.
fn pairs_before(
    text: &[u8],
    starts: &[usize],
    ends: &[usize],
    values: &[i32],
    first: usize,
    count: usize,
    out: &mut [u8],
    to: usize,
) -> usize
    requires table { Table starts.now ends.now count }
    requires first_le_count { (first ≤ count) × (count ≤ length values.now) }
    ensures { Fronts (lines_printed (with_previous (drop first (declarations_of (table_names text.now starts.now ends.now count) values.now))))
        out.old out.new to result }
{
    let mut place = to;
    for i in (first..count).rev() {
        let z = values[i];
        let own = line_before(text, starts, ends, count, i, z, true, out, place);
        place = line_before(text, starts, ends, count, i, z, false, out, own);
    }
    place
}

// The section VAR_INPUT, left out if empty.
fn inputs_before(
    text: &[u8],
    starts: &[usize],
    ends: &[usize],
    values: &[i32],
    inputs: usize,
    count: usize,
    out: &mut [u8],
    to: usize,
) -> usize
    requires table { Table starts.now ends.now count }
    requires inputs_le_count { (inputs ≤ count) × (count ≤ length values.now) }
    ensures { Fronts (inputs_printed inputs (declarations_of (table_names text.now starts.now ends.now count) values.now))
        out.old out.new to result }
{
    if inputs == 0 {
        return to;
    }
    let end = st_writer::bytes_before(out, to, b"END_VAR\n");
    let lines = lines_before(text, starts, ends, values, inputs, count, false, out, end);
    st_writer::bytes_before(out, lines, b"VAR_INPUT\n")
}

// The section VAR, left out if empty: the previous values of the inputs, then each variable and its own.
fn variables_before(
    text: &[u8],
    starts: &[usize],
    ends: &[usize],
    values: &[i32],
    inputs: usize,
    count: usize,
    out: &mut [u8],
    to: usize,
) -> usize
    requires table { Table starts.now ends.now count }
    requires inputs_le_count { (inputs ≤ count) × (count ≤ length values.now) }
    ensures { Fronts (variables_printed inputs (declarations_of (table_names text.now starts.now ends.now count) values.now))
        out.old out.new to result }
{
    if count == 0 {
        return to;
    }
    let end = st_writer::bytes_before(out, to, b"END_VAR\n");
    let own = pairs_before(text, starts, ends, values, inputs, count, out, end);
    let lines = lines_before(text, starts, ends, values, inputs, count, true, out, own);
    st_writer::bytes_before(out, lines, b"VAR\n")
}

// Both sections: of the names that the table holds, the first are inputs.
pub fn sections_before(
    text: &[u8],
    starts: &[usize],
    ends: &[usize],
    values: &[i32],
    inputs: usize,
    count: usize,
    out: &mut [u8],
    to: usize,
) -> usize
    requires table { Table starts.now ends.now count }
    requires inputs_le_count { (inputs ≤ count) × (count ≤ length values.now) }
    ensures { Fronts (sections_printed inputs (declarations_of (table_names text.now starts.now ends.now count) values.now))
        out.old out.new to result }
{
    let variables = variables_before(text, starts, ends, values, inputs, count, out, to);
    inputs_before(text, starts, ends, values, inputs, count, out, variables)
}

// `_v := v;`
fn saving_before(
    text: &[u8],
    starts: &[usize],
    ends: &[usize],
    count: usize,
    id: usize,
    out: &mut [u8],
    to: usize,
) -> usize
    requires { Table starts.now ends.now count }
    ensures { Fronts (statement_printed (saving_line (get_or (table_names text.now starts.now ends.now count) id [])))
        out.old out.new to result }
{
    let end = st_writer::bytes_before(out, to, b";\n");
    let value = st_writer::name_before(out, end, text, starts, ends, count, id);
    let sign = st_writer::bytes_before(out, value, b" := ");
    let target = st_writer::name_before(out, sign, text, starts, ends, count, id);
    st_writer::byte_before(out, target, 95)
}

// Every previous-value line, in declared order.
pub fn savings_before(
    text: &[u8],
    starts: &[usize],
    ends: &[usize],
    count: usize,
    out: &mut [u8],
    to: usize,
) -> usize
    requires { Table starts.now ends.now count }
    ensures { Fronts (statements_printed (map saving_line (table_names text.now starts.now ends.now count)))
        out.old out.new to result }
{
    let mut place = to;
    for i in (0..count).rev() {
        place = saving_before(text, starts, ends, count, i, out, place);
    }
    place
}
