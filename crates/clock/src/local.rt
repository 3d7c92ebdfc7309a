// The farm table and its local time. A table is lent as one list of numbers: each entry's UTC minute, then its offset.
ghost use Rattle.std.specs.Prelude.{◌≡◌, ◌&&◌, cond, ◌<◌, ◌≤◌, ◌^◌, negsuc, ◌-ℤ◌};
ghost use Rattle.std.specs.Int.Signed.{le_z, lt_z, mag};
ghost use Rattle.arith.specs.Values.{eq_z};
ghost use Rattle.clock.specs.Clock.{entries_of, is_minute, entry_fits, entries_fit, is_table, offset_at, local_at, day_of, minute_of, again_of};
ghost use Rattle.clock.specs.Inner.Numbers.{SmallNumbers};

const DAY: i64 = 1440;

fn is_in(low: i64, high: i64, z: i64) -> bool
    ensures { result ≡ (le_z low z && le_z z high) }
{
    (low..=high).contains(&z)
}

pub fn is_minute(minute: i64) -> bool
    ensures { result ≡ is_minute minute }
{
    is_in(0, limits::LAST_MINUTE, minute)
}

// An entry after one whose minute is `last`.
fn is_entry(last: i64, minute: i64, offset: i64) -> bool
    ensures { result ≡ entry_fits last minute offset }
{
    if last < minute {
        if is_minute(minute) {
            return is_in(limits::LOWEST_OFFSET, limits::HIGHEST_OFFSET, offset);
        }
    }
    false
}

fn are_entries(table: &[i64]) -> bool
    ensures { result ≡ entries_fit (negsuc 0) (entries_of table.now) }
{
    let mut last: i64 = -1;
    for entry in table.chunks_exact(2) {
        if !is_entry(last, entry[0], entry[1]) {
            return false;
        }
        last = entry[0];
    }
    true
}

// Whether a table keeps its limits.
pub fn is_table(table: &[i64]) -> bool
    ensures { result ≡ is_table table.now }
{
    if table.len() % 2 != 0 {
        return false;
    }
    if table.len() / 2 < 1 {
        return false;
    }
    if limits::ENTRY_LIMIT < table.len() / 2 {
        return false;
    }
    are_entries(table)
}

// The offset of an entry if its minute has come, else the one that held before.
fn in_force(minute: i64, offset: i64, utc: i64, held: i64) -> i64
    ensures { result ≡ cond (le_z minute utc) offset held }
{
    if minute <= utc {
        return offset;
    }
    held
}

// The offset at any minute.
pub fn offset_at(table: &[i64], utc: i64) -> i64
    ensures { result ≡ offset_at (entries_of table.now) utc }
{
    let mut held = table.get(1).copied().unwrap_or(0);
    for entry in table.chunks_exact(2) {
        held = in_force(entry[0], entry[1], utc, held);
    }
    held
}

// Division that rounds down.
pub fn day_of(local: i64) -> i32
    requires { mag local < 2 ^ 41 }
    ensures { result ≡ day_of local }
{
    if local < 0 {
        return (-1 - (-1 - local) / DAY) as i32;
    }
    (local / DAY) as i32
}

// What it leaves, 0 to 1439.
pub fn minute_of(local: i64) -> i32
    requires { mag local < 2 ^ 41 }
    ensures { result ≡ minute_of local }
{
    (local - DAY * (day_of(local) as i64)) as i32
}

// Whether the minute that would have this local time under `offset` is earlier, and has that offset.
fn repeats(table: &[i64], utc: i64, local: i64, offset: i64) -> bool
    requires { (mag local < 2 ^ 41) × (mag offset ≤ 840) }
    ensures { result ≡ (lt_z (local -ℤ offset) utc && eq_z (offset_at (entries_of table.now) (local -ℤ offset)) offset) }
{
    let earlier = local - offset;
    if earlier < utc {
        return offset_at(table, earlier) == offset;
    }
    false
}

// 1 where an earlier minute has this local time.
pub fn again_of(table: &[i64], utc: i64, local: i64) -> i32
    requires { SmallNumbers (entries_of table.now) × (mag local < 2 ^ 41) × (local ≡ local_at (entries_of table.now) utc) }
    ensures { result ≡ again_of (entries_of table.now) utc }
{
    for entry in table.chunks_exact(2) {
        if repeats(table, utc, local, entry[1]) {
            return 1;
        }
    }
    0
}
