// The timers of a variable, after its rule: their instructions are put, and their current values may be used.
ghost use Rattle.std.specs.Prelude.{◌+◌, ◌*◌, ◌≤◌, ◌<◌, ◌^◌};
ghost use Rattle.limits.specs.Limits.{name_limit};
ghost use Rattle.rules.specs.Inner.Timers.{table_timers, timers_in, TimerTables, TimersPut};

use expressions::scope::Names;

// The names known and the end of the code, behind timers.
#[derive(Clone, Copy)]
pub struct Behind {
    pub known: u64,
    pub to: usize,
}

// The timer `id`, if it is one of v.
fn timer_of(
    watched: &[u8],
    limits: &[u32],
    id: usize,
    names: Names,
    v: usize,
    out: &mut [u8],
    to: usize,
) -> Behind
    requires timer_tables { TimerTables watched.now limits.now names.count }
    requires id_lt_count { (id < names.count) × (names.count ≤ name_limit) × (v < name_limit) × (to < 2 ^ 30) }
    ensures { TimersPut (table_timers watched.now limits.now id 1) v names.count names.known to out.old out.new result }
{
    if watched[id] as usize == v {
        let t = bytecode::put_timer(out, to, id as u64, v as u64, limits[id] as u64);
        let more = expressions::scope::ruled(names, id);
        return Behind {
            known: more.known,
            to: t,
        };
    }
    Behind {
        known: names.known,
        to,
    }
}

// All timers of v. The first timer has the id `first`.
pub fn timers_of(
    watched: &[u8],
    limits: &[u32],
    first: usize,
    names: Names,
    v: usize,
    out: &mut [u8],
    to: usize,
) -> Behind
    requires timer_tables { TimerTables watched.now limits.now names.count }
    requires count_le_name_limit { (names.count ≤ name_limit) × (v < name_limit) × (to + 8 * name_limit < 2 ^ 30) }
    ensures { TimersPut (timers_in watched.now limits.now first names.count) v names.count names.known to out.old out.new result }
{
    let count = names.count;
    let mut known = names.known;
    let mut t = to;
    for id in first..count {
        let one = timer_of(watched, limits, id, Names { count, known }, v, out, t);
        known = one.known;
        t = one.to;
    }
    Behind { known, to: t }
}
