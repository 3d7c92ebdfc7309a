// Whether an image is sound.
#![tactic(auto)]

ghost use Rattle.std.specs.Prelude.{◌≡◌, ◌≤◌, length};
ghost use Rattle.limits.specs.Limits.{name_limit};
ghost use Rattle.limits.specs.Refusals.{stands_for, judged_by};
ghost use Rattle.bytecode.specs.Check.{complete as completeOf, check_of};
ghost use Rattle.checker.specs.Inner.Walk.{known_of, Small, initial_walk};
ghost use Rattle.checker.specs.Inner.Surveys.{ReadHeader};
ghost use Rattle.checker.specs.Results.{CheckedWithin, SurveyedBy, Judges, VerdictWithin};

use advance::Walk;
use limits::Refusal;

pub mod advance;
pub mod ahead;
pub mod timed;

// Nothing is missing at the end: no value held, no gate without its pick, no pick without its settle, each variable with its rule.
pub fn complete(w: Walk) -> bool
    requires { Small w }
    ensures { result ≡ completeOf (known_of w) }
{
    if w.held != 0 {
        return false;
    }
    if w.gate != 0 {
        return false;
    }
    if w.picking != 0 {
        return false;
    }
    w.known == arith::bits::ones(w.names)
}

// Before the first instruction: nothing held, no gate, no picks; the inputs known.
pub fn initial(inputs: usize, names: usize) -> Walk
    requires { inputs ≤ name_limit }
    ensures { result ≡ initial_walk inputs names }
{
    Walk {
        held: 0,
        sorts: 0,
        gate: 0,
        picking: 0,
        known: arith::bits::ones(inputs as u64),
        names: names as u64,
    }
}

// Sound and without timers; or the place in the code of the instruction that breaks soundness, its length where something is only missing there; or a timer
// was met, and nothing is said.
#[derive(Clone, Copy)]
pub enum Verdict {
    Sound,
    Broken(usize),
    Timed,
}

// The walk alone, from a place of the code on, up to a timer.
pub fn walk_from(code: &[u8], from: usize, first: Walk) -> Verdict
    requires { Small first }
    ensures judges { Judges code.now from (known_of first) result }
    ensures verdict_within { VerdictWithin (length code.now) result }
{
    let mut at = from;
    let mut w = first;
    // a `while`: the place moves on by an instruction's length, which is known when it is read
    while at < code.len() {
        let Some((k, next)) = ahead::ahead(code, at, w) else {
            if code[at] == bytecode::opcode::TIMER {
                return Verdict::Timed;
            }
            return Verdict::Broken(at);
        };
        w = k;
        at = next;
    }
    if complete(w) {
        return Verdict::Sound;
    }
    Verdict::Broken(code.len())
}

// A sound image without timers, or any sound image.
#[derive(Clone, Copy)]
pub enum Surveyed {
    Plain,
    Timed,
}

// The code behind a header that was read.
fn survey_code(image: &[u8], inputs: usize, names: usize, place: usize) -> Result<Surveyed, Refusal>
    requires { ReadHeader image.now inputs names place }
    ensures result_value { judged_by result ≡ check_of image.now }
    ensures surveyed_by { SurveyedBy image.now result }
{
    match walk_from(&image[place..], 0, initial(inputs, names)) {
        Verdict::Sound => Ok(Surveyed::Plain),
        Verdict::Broken(at) => Err(Refusal::BrokenImage(place + at)),
        Verdict::Timed => timed::survey_timed(image),
    }
}

// As `check`; a sound image without timers is told apart.
pub fn survey(image: &[u8]) -> Result<Surveyed, Refusal>
    ensures result_value { judged_by result ≡ check_of image.now }
    ensures surveyed_by { SurveyedBy image.now result }
{
    if limits::IMAGE_LIMIT < image.len() {
        return Err(Refusal::TooLong);
    }
    let mut low = [0i32; 1];
    let mut high = [0i32; 1];
    let mut start = [0i32; 1];
    match bytecode::header(image, &mut low, &mut high, &mut start) {
        Err(place) => Err(Refusal::BrokenImage(place)),
        Ok((inputs, names, place)) => survey_code(image, inputs, names, place),
    }
}

pub fn check(image: &[u8]) -> Result<(), Refusal>
    ensures result_value { stands_for result ≡ check_of image.now }
    ensures checked_within { CheckedWithin result }
{
    survey(image)?;
    Ok(())
}
