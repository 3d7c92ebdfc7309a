// The lists that a scan is lent: copies, and values tested against their ranges.
ghost use Rattle.std.specs.Prelude.{◌≡◌, List, ◌++◌, ◌+◌, ◌≤◌, min, length, drop};
ghost use Rattle.std.proofs.lemmas.List.Edits.{sets};
ghost use Rattle.semantics.specs.Program.{Range};
ghost use Rattle.semantics.specs.Shape.{all_within};
ghost use Rattle.semantics.specs.ReferenceScan.{with_inputs};
ghost use Rattle.machine.specs.Inner.Memory.{RangesIn};

use crate::values;

// `from`, written over the front of `to`.
pub fn fill(to: &mut [i32], from: &[i32])
    requires { length from.now ≤ length to.old }
    ensures { to.new ≡ from.now ++ drop (length from.now) to.old }
{
    // no copy_from_slice: that is a call of memmove, and the archive for C needs memcpy and memset alone
    for (i, x) in from.iter().enumerate() {
        to[i] = *x;
    }
}

// The place n behind `at`, no further than `most`.
pub fn behind(at: usize, n: usize, most: usize) -> usize
    requires { at ≤ most }
    ensures { result ≡ min (at + n) most }
{
    at.saturating_add(n).min(most)
}

// `from`, written into `to` from a place on, as far as there is room; the place behind it.
pub fn store(to: &mut [i32], at: usize, from: &[i32]) -> usize
    requires { at ≤ length to.old }
    ensures value { result ≡ min (at + length from.now) (length to.old) }
    ensures to_after { to.new ≡ sets to.old at from.now }
{
    let end = behind(at, from.len(), to.len());
    fill(&mut to[at..end], &from[..end - at]);
    end
}

// A copy of the state, with the row over its front.
pub fn take_row(copy: &mut [i32], state: &[i32], row: &[i32])
    requires { (length copy.old ≡ length state.now) × (length row.now ≤ length state.now) }
    ensures { copy.new ≡ with_inputs state.now row.now }
{
    fill(copy, state);
    fill(copy, row);
}

// Whether each value lies in the range at its place.
pub fn all_in_range(low: &[i32], high: &[i32], values: &[i32]) -> bool
    requires { (length values.now ≤ length low.now) × (length high.now ≡ length low.now) }
    ensures { (ns : List Range) → RangesIn ns low.now high.now → result ≡ all_within ns values.now }
{
    for (i, v) in values.iter().enumerate() {
        if !values::in_range(low[i], high[i], *v) {
            return false;
        }
    }
    true
}
