// The translate service: one descent that checks the text and makes its image in memory of its own, which is then stored where it fits.
// A refused text so never touches the lent buffer.
#![tactic(auto)]

ghost use Rattle.std.specs.Prelude.{◌≡◌, [], ◌++◌, ◌+◌, ◌*◌, ◌≤◌, ◌<◌, length, drop};
ghost use Rattle.limits.specs.Limits.{text_limit, image_room};
ghost use Rattle.arith.specs.Inner.Flags.{flags_of};
ghost use Rattle.grammar.specs.Parse.{program, parse};
ghost use Rattle.expressions.specs.Inner.Scopes.{Declared};
ghost use Rattle.expressions.specs.Inner.Steps.{Room};
ghost use Rattle.expressions.specs.Inner.Readers.{StandsAt};
ghost use Rattle.phrases.specs.Inner.Steps.{number_told, Writes};
ghost use Rattle.watches.specs.Inner.Codes.{no_code};
ghost use Rattle.declarations.specs.Inner.Tables.{TableRoom};
ghost use Rattle.declarations.specs.Inner.Timers.{TimerRoom};
ghost use Rattle.translate.specs.Services.{translation_of};
ghost use Rattle.translate.specs.Results.{after_translation, TranslatedWithin};
ghost use Rattle.translate.specs.Inner.Descent.{free_scope, tail_from, ReadsHeading, Descends, Analyses};

use expressions::scope::Names;
use lexer::{Place, Step};
use limits::Refusal;

// What an accepted text has: the image's length; how many inputs, names and timers among the names; the place where the rules end, and
// how many watches there are behind it.
#[derive(Clone, Copy)]
pub struct Analysis {
    pub length: usize,
    pub inputs: usize,
    pub names: usize,
    pub timers: usize,
    pub rules_end: usize,
    pub watches: usize,
}

// The watches and the end of the text, from the token behind the rules on. The number told is how many watches there are.
fn tail(text: &[u8], starts: &[usize], ends: &[usize], count: usize, behind: Place) -> Step
    requires declared { Declared starts.now ends.now (record { count = count; known = behind.number }) }
    requires room { Room text.now behind.at 0 }
    requires stands_at { StandsAt text.now behind }
    ensures { Writes no_code number_told length (tail_from (free_scope text.now starts.now ends.now count) (flags_of count behind.number) behind.at) behind.to [] [] result }
{
    let free = expressions::scope::first_names(count, count);
    let last = watches::watches(text, starts, ends, free, behind)?;
    let names = Names {
        count,
        known: behind.number as u64,
    };
    rules::finish(
        last.kind,
        last.start,
        last.end,
        names,
        behind.to,
        last.number,
    )
}

// All inputs, then all variables, then all timers, into the tables. Told are how many inputs and how many names there are, and the id of
// the first timer.
fn heading(
    text: &[u8],
    starts: &mut [usize],
    ends: &mut [usize],
    watched: &mut [u8],
    limits: &mut [u32],
    out: &mut [u8],
) -> Step
    requires text_len_bound { length text.now ≤ text_limit }
    requires table_room { TableRoom starts.old ends.old 0 }
    requires timer_room { TimerRoom watched.old limits.old }
    ensures { ReadsHeading text.now out.old out.new starts.new ends.new watched.new limits.new result }
{
    let inputs = declarations::declarations(text, 0, lexer::INPUT, starts, ends, 0, out, 2)?;
    let variables = declarations::declarations(
        text,
        inputs.at,
        lexer::VAR,
        starts,
        ends,
        inputs.number,
        out,
        inputs.to,
    )?;
    let all = declarations::timers::timers(
        text,
        variables.at,
        starts,
        ends,
        variables.number,
        inputs.number,
        watched,
        limits,
        out,
        variables.to,
    )?;
    Ok(Place {
        at: all.at,
        kind: lexer::UNKNOWN,
        start: inputs.number,
        end: variables.number,
        to: all.to,
        number: all.number,
        value: 0,
    })
}

// The whole text, into lent memory as far as there is room: the declarations; the rules; the watches; and last the header's two counts.
fn descend_in(
    text: &[u8],
    starts: &mut [usize],
    ends: &mut [usize],
    watched: &mut [u8],
    limits: &mut [u32],
    out: &mut [u8],
) -> Step
    requires text_len_bound { length text.now ≤ text_limit }
    requires table_room { TableRoom starts.old ends.old 0 }
    requires timer_room { TimerRoom watched.old limits.old }
    ensures { Descends text.now (program text.now) out.old out.new starts.new ends.new result }
{
    let all = heading(text, starts, ends, watched, limits, out)?;
    let names = expressions::scope::first_names(all.start, all.number);
    let behind = rules::rules(
        text, starts, ends, names, watched, limits, all.end, all.at, out, all.to,
    )?;
    let mut last = tail(text, starts, ends, all.number, behind)?;
    leb128::put_byte(out, 0, all.start as u8);
    leb128::put_byte(out, 1, (all.number - all.start) as u8);
    last.start = behind.at;
    last.end = all.number - all.end;
    Ok(last)
}

// Told are where the rules end, how many timers and how many watches there are.
pub fn descend(text: &[u8], starts: &mut [usize], ends: &mut [usize], out: &mut [u8]) -> Step
    requires text_len_bound { length text.now ≤ text_limit }
    requires table_room { TableRoom starts.old ends.old 0 }
    ensures { Descends text.now (program text.now) out.old out.new starts.new ends.new result }
{
    let mut watched = [0u8; limits::NAME_LIMIT];
    let mut bounds = [0u32; limits::NAME_LIMIT];
    descend_in(text, starts, ends, &mut watched, &mut bounds, out)
}

// A count of the header; no `usize::from`, since the contract of this one bounds it.
fn count_of(byte: u8) -> usize
    ensures { (result ≡ byte) × (result < 256) }
{
    byte as usize
}

// Checks a text, measures its image and tells where its watches stand; leaves the names in the table, which has room for 64.
pub fn analyse(text: &[u8], starts: &mut [usize], ends: &mut [usize]) -> Result<Analysis, Refusal>
    requires { TableRoom starts.old ends.old 0 }
    ensures { Analyses text.now (parse text.now) starts.new ends.new result }
{
    if limits::TEXT_LIMIT < text.len() {
        return Err(Refusal::TooLong);
    }
    // room for the two counts
    let mut counts = [0u8; 2];
    let end = descend(text, starts, ends, &mut counts)?;
    let inputs = count_of(counts[0]);
    let names = inputs + count_of(counts[1]);
    Ok(Analysis {
        length: end.to,
        inputs,
        names,
        timers: end.end,
        rules_end: end.start,
        watches: end.number,
    })
}

// `from`, written over the front of `to`.
fn store(to: &mut [u8], from: &[u8])
    requires { length from.now ≤ length to.old }
    ensures { to.new ≡ from.now ++ drop (length from.now) to.old }
{
    to[..from.len()].copy_from_slice(from);
}

// Over lent scratch memory with room for the image.
fn translate_in(
    text: &[u8],
    image: &mut [u8],
    starts: &mut [usize],
    ends: &mut [usize],
    scratch: &mut [u8],
) -> Result<usize, Refusal>
    requires table_room { TableRoom starts.old ends.old 0 }
    requires text_len_bound { (length text.now ≤ text_limit) × (3 * length text.now + 4 ≤ 2 * length scratch.old) }
    ensures image_after { after_translation result image.new ≡ translation_of text.now image.old }
    ensures translated_within { TranslatedWithin result }
{
    let end = descend(text, starts, ends, scratch)?;
    let size = end.to;
    if image.len() < size {
        return Err(Refusal::BufferTooShort(text.len()));
    }
    store(image, &scratch[..size]);
    Ok(size)
}

// With scratch memory for an image of ROOM bytes: clearing more would take longer than the descent of a short text.
fn translate_with_room<const ROOM: usize>(text: &[u8], image: &mut [u8]) -> Result<usize, Refusal>
    requires text_in_room { (length text.now ≤ text_limit) × (3 * length text.now + 4 ≤ 2 * ROOM) }
    requires room_within { ROOM ≤ image_room }
    ensures image_after { after_translation result image.new ≡ translation_of text.now image.old }
    ensures translated_within { TranslatedWithin result }
{
    let mut starts = [0usize; limits::NAME_LIMIT];
    let mut ends = [0usize; limits::NAME_LIMIT];
    let mut scratch = [0u8; ROOM];
    translate_in(text, image, &mut starts, &mut ends, &mut scratch)
}

// The image's length. No image of a text has over 49,154 bytes, of one of at most 1,024 bytes over 1,538, of one of at most 8,192 bytes over 12,290.
pub fn translate(text: &[u8], image: &mut [u8]) -> Result<usize, Refusal>
    ensures image_after { after_translation result image.new ≡ translation_of text.now image.old }
    ensures translated_within { TranslatedWithin result }
{
    if text.len() <= 1024 {
        return translate_with_room::<1538>(text, image);
    }
    if text.len() <= 8192 {
        return translate_with_room::<12290>(text, image);
    }
    if text.len() <= limits::TEXT_LIMIT {
        return translate_with_room::<{ limits::IMAGE_ROOM }>(text, image);
    }
    Err(Refusal::TooLong)
}
