// The names declared, and which of them may be used with their current value.
ghost use Rattle.std.specs.Prelude.{◌≡◌, true, false, ◌≤◌, ◌<◌, get_or, set};
ghost use Rattle.limits.specs.Limits.{name_limit};
ghost use Rattle.semantics.specs.Program.{known_first, all_true};
ghost use Rattle.arith.specs.Inner.Flags.{flags_of};

use arith::bits;

// The names declared: how many, and which of them may be used with their current value (bit i for the name with id i).
#[derive(Clone, Copy)]
pub struct Names {
    pub count: usize,
    pub known: u64,
}

// The names before the first rule, the first `inputs` of them inputs: just their current values may be used.
pub fn first_names(inputs: usize, count: usize) -> Names
    requires { inputs ≤ name_limit }
    ensures { (result.count ≡ count) × (flags_of count result.known ≡ known_first inputs count) }
{
    Names {
        count,
        known: bits::ones(inputs as u64),
    }
}

// The names after the rule of the variable `id`: its current value may be used.
pub fn ruled(names: Names, id: usize) -> Names
    requires { id < name_limit }
    ensures { (result.count ≡ names.count) × (flags_of names.count result.known ≡ set (flags_of names.count names.known) id true) }
{
    Names {
        count: names.count,
        known: bits::with_bit(names.known, id as u64),
    }
}

// Whether the current value of the name `id` may be used.
pub fn is_known(names: Names, id: usize) -> bool
    requires { (id < names.count) × (names.count ≤ name_limit) }
    ensures { result ≡ get_or (flags_of names.count names.known) id false }
{
    bits::bit(names.known, id as u64)
}

// Whether the current value of every name may be used.
pub fn all_known(names: Names) -> bool
    requires { names.count ≤ name_limit }
    ensures { result ≡ all_true (flags_of names.count names.known) }
{
    (0..names.count).all(|id| is_known(names, id))
}
