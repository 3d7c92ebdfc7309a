// The clock service: the inputs `day`, `minute` and `again` of a row, filled from a farm table and a UTC minute.
#![tactic(auto)]

ghost use Rattle.std.specs.Prelude.{◌≡◌, ◌≤◌, ◌<◌, ◌^◌, length};
ghost use Rattle.std.specs.Int.Signed.{mag};
ghost use Rattle.limits.specs.Limits.{name_limit};
ghost use Rattle.lexer.specs.Names.{table_names, id_of, Table};
ghost use Rattle.declarations.specs.Inner.Tables.{TableRoom};
ghost use Rattle.clock.specs.Clock.{entries_of};
ghost use Rattle.clock.specs.Services.{filled_at, row_filled, fill_of};
ghost use Rattle.clock.specs.Results.{after_fill, FilledWithin};
ghost use Rattle.clock.specs.Inner.Numbers.{SmallNumbers};
ghost use Rattle.clock.specs.Inner.Rows.{row_for};

mod local;

use limits::Refusal;

// The value of the input of a name, where it is declared.
fn fill_named(
    text: &[u8],
    starts: &[usize],
    ends: &[usize],
    name: &[u8],
    row: &mut [i32],
    value: i32,
)
    requires { Table starts.now ends.now (length row.old) }
    ensures { row.new ≡ filled_at (id_of (table_names text.now starts.now ends.now (length row.old)) name.now) value row.old }
{
    if let Some(id) = lexer::find(text, starts, ends, row.len(), name) {
        row[id] = value;
    }
}

// The three values into a row whose inputs the table of names holds first.
fn fill_row(text: &[u8], starts: &[usize], ends: &[usize], table: &[i64], utc: i64, row: &mut [i32])
    requires { Table starts.now ends.now (length row.old) × SmallNumbers (entries_of table.now) × (mag utc < 2 ^ 31) }
    ensures { row.new ≡ row_filled (table_names text.now starts.now ends.now (length row.old)) (entries_of table.now) utc row.old }
{
    let time = utc + local::offset_at(table, utc);
    fill_named(text, starts, ends, b"day", row, local::day_of(time));
    fill_named(text, starts, ends, b"minute", row, local::minute_of(time));
    fill_named(
        text,
        starts,
        ends,
        b"again",
        row,
        local::again_of(table, utc, time),
    );
}

// A row has the inputs, and the milliseconds behind them where there is any timer.
fn row_length(inputs: usize, timers: usize) -> usize
    requires { inputs ≤ name_limit }
    ensures { result ≡ row_for inputs timers }
{
    if 0 < timers {
        return inputs + 1;
    }
    inputs
}

// With lent memory for the names.
fn fill_in(
    text: &[u8],
    table: &[i64],
    utc: i64,
    row: &mut [i32],
    starts: &mut [usize],
    ends: &mut [usize],
) -> Result<(), Refusal>
    requires { TableRoom starts.old ends.old 0 }
    ensures row_after { after_fill result row.new ≡ fill_of text.now table.now utc row.old }
    ensures filled_within { FilledWithin result }
{
    let analysis = translate::analyse(text, starts, ends)?;
    if !local::is_table(table) {
        return Err(Refusal::BrokenTable);
    }
    if !local::is_minute(utc) {
        return Err(Refusal::MinuteOutOfLimit);
    }
    let inputs = analysis.inputs;
    if row.len() != row_length(inputs, analysis.timers) {
        return Err(Refusal::WrongLength);
    }
    fill_row(text, starts, ends, table, utc, &mut row[..inputs]);
    Ok(())
}

pub fn fill(text: &[u8], table: &[i64], utc: i64, row: &mut [i32]) -> Result<(), Refusal>
    ensures row_after { after_fill result row.new ≡ fill_of text.now table.now utc row.old }
    ensures filled_within { FilledWithin result }
{
    let mut starts = [0usize; limits::NAME_LIMIT];
    let mut ends = [0usize; limits::NAME_LIMIT];
    fill_in(text, table, utc, row, &mut starts, &mut ends)
}
