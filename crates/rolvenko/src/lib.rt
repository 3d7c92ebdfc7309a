// The services as C functions. include/rolvenko.h declares them.
#![tactic(auto)]

ghost use Rattle.std.specs.Prelude.{◌≡◌, ◌^◌, ◌<◌, IfErr, MatchResult};
ghost use Rattle.limits.specs.Refusals.{refusal_number, refusal_place, stands_for};
ghost use Rattle.bytecode.specs.Check.{check_of};
ghost use Rattle.scan.specs.Services.{start_of, scan_of};
ghost use Rattle.replay.specs.Replay.{replay_of, ShownIf};
ghost use Rattle.replay.specs.Results.{lent};
ghost use Rattle.clock.specs.Services.{fill_of};
ghost use Rattle.charge.specs.Charge.{charge_of};
ghost use Rattle.closed.specs.Closed.{closed_of, closed_part_of, combination_of};
ghost use Rattle.paused.specs.Responses.{packed, packed_response};
ghost use Rattle.resumable.specs.Instalment.{advance_of};
ghost use Rattle.lifecycle.specs.Calls.{finish_of, begin_of, post_of};
ghost use Rattle.rounds.specs.Visits.{visit_of};
ghost use Rattle.rounds.specs.Together.{together, call_of};
ghost use Rattle.rolvenko.specs.Packed.{packed_translation, packed_check, packed_scan, packed_charge};
ghost use Rattle.translate.specs.Services.{translation_of};
ghost use Rattle.structured_text.specs.Services.{structured_text_of};
ghost use Rattle.watch.specs.Services.{watch_of};

use limits::Refusal;

fn pack_refusal(e: Refusal) -> u64
    requires { refusal_place e < 2 ^ 32 }
    ensures { result ≡ packed (refusal_number e) (refusal_place e) 0 }
{
    paused::pack(e.number(), e.place(), 0)
}

// The answer of a service that says no more than whether it refuses.
fn pack_check(r: Result<(), Refusal>) -> u64
    requires { IfErr r (λ e. refusal_place e < 2 ^ 32) }
    ensures { result ≡ packed_check (stands_for r) }
{
    match r {
        Ok(()) => 0,
        Err(e) => pack_refusal(e),
    }
}

// The answer of a service that tells a length or a count.
fn pack_count(r: Result<usize, Refusal>) -> u64
    requires { MatchResult r (λ n. n < 2 ^ 24) (λ e. refusal_place e < 2 ^ 32) }
    ensures { result ≡ packed_translation (stands_for r) }
{
    match r {
        Ok(n) => paused::pack(0, 0, n as u64),
        Err(e) => pack_refusal(e),
    }
}

#[unsafe(no_mangle)]
pub extern "C" fn rolvenko_translate(text: &[u8], image: &mut [u8]) -> u64
    ensures value { result ≡ packed_translation (translation_of text.now image.old).answer }
    ensures image_after { image.new ≡ (translation_of text.now image.old).buffer }
{
    pack_count(translate::translate(text, image))
}

#[unsafe(no_mangle)]
pub extern "C" fn rolvenko_structured_text(text: &[u8], out: &mut [u8]) -> u64
    ensures value { result ≡ packed_translation (structured_text_of text.now out.old).answer }
    ensures out_after { out.new ≡ (structured_text_of text.now out.old).buffer }
{
    pack_count(structured_text::structured_text(text, out))
}

#[unsafe(no_mangle)]
pub extern "C" fn rolvenko_check(image: &[u8]) -> u64
    ensures { result ≡ packed_check (check_of image.now) }
{
    pack_check(checker::check(image))
}

#[unsafe(no_mangle)]
pub extern "C" fn rolvenko_start(image: &[u8], state: &mut [i32]) -> u64
    ensures value { result ≡ packed_check (start_of image.now state.old).answer }
    ensures state_after { state.new ≡ (start_of image.now state.old).state }
{
    pack_check(scan::start(image, state))
}

#[unsafe(no_mangle)]
pub extern "C" fn rolvenko_scan(image: &[u8], state: &mut [i32], row: &[i32]) -> u64
    ensures value { result ≡ packed_scan (scan_of image.now state.old row.now) }
    ensures state_after { state.new ≡ (scan_of image.now state.old row.now).state }
{
    match scan::scan(image, state, row) {
        scan::Scanned::Done(steps) => paused::pack(0, 0, steps as u64),
        scan::Scanned::Refused(number, place, steps) => paused::pack(number, place, steps as u64),
    }
}

#[unsafe(no_mangle)]
pub extern "C" fn rolvenko_replay(
    text: &[u8],
    image: &mut [u8],
    state: &mut [i32],
    cells: &[i32],
    lengths: &[usize],
    numbers: &mut [u8],
    steps: &mut [usize],
    trace: &mut [i32],
) -> u64
    ensures value { result ≡ packed_translation (replay_of text.now cells.now lengths.now
        (lent image.old state.old numbers.old steps.old trace.old)).answer }
    ensures trace_after { lent image.new state.new numbers.new steps.new trace.new
        ≡ (replay_of text.now cells.now lengths.now
        (lent image.old state.old numbers.old steps.old trace.old)).left }
    ensures shown_if { ShownIf (replay_of text.now cells.now lengths.now
        (lent image.old state.old numbers.old steps.old trace.old)).answer
        text.now cells.now lengths.now
        (lent image.old state.old numbers.old steps.old trace.old)
        (lent image.new state.new numbers.new steps.new trace.new) }
{
    pack_count(replay::replay(text, image, state, cells, lengths, numbers, steps, trace))
}

#[unsafe(no_mangle)]
pub extern "C" fn rolvenko_clock(text: &[u8], table: &[i64], utc: i64, row: &mut [i32]) -> u64
    ensures value { result ≡ packed_check (fill_of text.now table.now utc row.old).answer }
    ensures row_after { row.new ≡ (fill_of text.now table.now utc row.old).row }
{
    pack_check(clock::fill(text, table, utc, row))
}

#[unsafe(no_mangle)]
pub extern "C" fn rolvenko_charge(
    image: &[u8],
    id: usize,
    trace: &[i32],
    minutes: &[i32],
    threshold: i32,
    rate: i32,
    rate_above: i32,
) -> u64
    ensures { result ≡ packed_charge (charge_of image.now id trace.now minutes.now threshold rate rate_above) }
{
    match charge::charge(image, id, trace, minutes, threshold, rate, rate_above) {
        Ok(a) => 60 * a.cents + a.sixtieths,
        Err(e) => pack_refusal(e),
    }
}

#[unsafe(no_mangle)]
pub extern "C" fn rolvenko_closed(image: &[u8]) -> u64
    ensures { result ≡ packed_check (closed_of image.now).answer }
{
    let profile = closed::closed_profile(image);
    pack_check(profile.answer)
}

#[unsafe(no_mangle)]
pub extern "C" fn rolvenko_closed_part(image: &[u8], first: usize, most: usize) -> u64
    ensures { result ≡ packed_check (closed_part_of image.now first most).answer }
{
    let part = closed::closed_part(image, first, most);
    pack_check(part.answer)
}

#[unsafe(no_mangle)]
pub extern "C" fn rolvenko_combination(
    image: &[u8],
    index: u32,
    state: &mut [i32],
    row: &mut [i32],
) -> u64
    ensures value { result ≡ packed_check (combination_of image.now index state.old row.old).answer }
    ensures state_after { state.new ≡ (combination_of image.now index state.old row.old).state }
    ensures row_after { row.new ≡ (combination_of image.now index state.old row.old).row }
{
    pack_check(closed::combination(image, index as usize, state, row))
}

#[unsafe(no_mangle)]
pub extern "C" fn rolvenko_post(paused: &mut [i32], image: &[u8], row: &[i32]) -> u64
    ensures value { result ≡ packed_response (post_of image.now row.now paused.old).reply }
    ensures paused_after { paused.new ≡ (post_of image.now row.now paused.old).cells }
{
    let response = lifecycle::post(paused, image, row);
    paused::pack_response(response)
}

#[unsafe(no_mangle)]
pub extern "C" fn rolvenko_begin(paused: &mut [i32], image: &[u8], state: &[i32]) -> u64
    ensures value { result ≡ packed_response (begin_of image.now state.now paused.old).reply }
    ensures paused_after { paused.new ≡ (begin_of image.now state.now paused.old).cells }
{
    let response = lifecycle::begin(paused, image, state);
    paused::pack_response(response)
}

#[unsafe(no_mangle)]
pub extern "C" fn rolvenko_advance(paused: &mut [i32], image: &[u8], steps: usize) -> u64
    ensures value { result ≡ packed_response (advance_of image.now steps paused.old).reply }
    ensures paused_after { paused.new ≡ (advance_of image.now steps paused.old).cells }
{
    let response = resumable::advance(paused, image, steps);
    paused::pack_response(response)
}

#[unsafe(no_mangle)]
pub extern "C" fn rolvenko_finish(paused: &mut [i32], state: &mut [i32]) -> u64
    ensures value { result ≡ packed_response (finish_of state.old paused.old).reply }
    ensures paused_after { paused.new ≡ (finish_of state.old paused.old).cells }
    ensures state_after { state.new ≡ (finish_of state.old paused.old).state }
{
    let response = lifecycle::finish(paused, state);
    paused::pack_response(response)
}

#[unsafe(no_mangle)]
pub extern "C" fn rolvenko_visit(
    paused: &mut [i32],
    image: &[u8],
    state: &mut [i32],
    share: usize,
) -> u64
    ensures value { result ≡ packed_response (visit_of image.now share paused.old state.old).reply }
    ensures paused_after { paused.new ≡ (visit_of image.now share paused.old state.old).cells }
    ensures state_after { state.new ≡ (visit_of image.now share paused.old state.old).state }
{
    let response = rounds::visit(paused, image, state, share);
    paused::pack_response(response)
}

#[unsafe(no_mangle)]
pub extern "C" fn rolvenko_round(
    paused: &mut [i32],
    images: &[u8],
    states: &mut [i32],
    sets: &[usize],
    answers: &mut [u64],
) -> u64
    ensures value { result ≡ packed (call_of sets.now images.now (together paused.old states.old answers.old)).number 0 0 }
    ensures answers_after { together paused.new states.new answers.new
        ≡ (call_of sets.now images.now (together paused.old states.old answers.old)).left }
{
    let number = rounds::round(paused, images, states, sets, answers);
    paused::pack(number, 0, 0)
}

#[unsafe(no_mangle)]
pub extern "C" fn rolvenko_watch(text: &[u8], trace: &[i32], report: &mut [i64]) -> u64
    ensures value { result ≡ packed_translation (watch_of text.now trace.now report.old).answer }
    ensures report_after { report.new ≡ (watch_of text.now trace.now report.old).report }
{
    pack_count(watch::watch(text, trace, report))
}
