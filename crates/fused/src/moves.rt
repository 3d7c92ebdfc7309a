// The progress behind an instruction that was passed over, or done.
ghost use Rattle.std.specs.Prelude.{◌≡◌};
ghost use Rattle.fused.specs.Inner.Passes.{passed_over, moved_of};

use crate::{Moved, Progress};
use checker::advance::Walk;
use machine::Stepped;

// An instruction that is passed over: only the walk moves.
pub fn over(b: Progress, next: usize, passing: bool, a: Option<Walk>) -> Moved
    ensures { result ≡ passed_over b next passing a }
{
    let Some(k) = a else {
        return Moved::Broken;
    };
    Moved::On(Progress {
        walk: k,
        at: next,
        picked: b.picked,
        passing,
    })
}

// An instruction that is done: the walk behind it, and how the machine's step ended.
pub fn onward(k: Walk, next: usize, s: Stepped) -> Moved
    ensures { result ≡ moved_of k next s }
{
    match s {
        Stepped::Next(t) => Moved::On(Progress {
            walk: k,
            at: next,
            picked: t.picked,
            passing: t.passing,
        }),
        Stepped::Refused(number) => Moved::Refused(
            Progress {
                walk: k,
                at: next,
                picked: false,
                passing: false,
            },
            number,
        ),
    }
}
