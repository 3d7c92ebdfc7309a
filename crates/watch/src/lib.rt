// The watch service: of each watch of a text, the place of a lent trace where it first failed.
#![tactic(auto)]

ghost use Rattle.std.specs.Prelude.{◌≡◌, true, List, [], ℕ, ◌*◌, ◌≤◌, ◌<◌, ◌^◌, pos, length};
ghost use Rattle.std.proofs.lemmas.List.Edits.{sets};
ghost use Rattle.limits.specs.Limits.{stack_limit, image_room, watch_limit};
ghost use Rattle.semantics.specs.Program.{Watch};
ghost use Rattle.semantics.specs.Shape.{states_of, is_trace, traced_states};
ghost use Rattle.watching.specs.Watching.{places_of, first_failure};
ghost use Rattle.evaluation.specs.Walks.{failed_at};
ghost use Rattle.grammar.specs.Parsed.{accepted};
ghost use Rattle.grammar.specs.Watches.{watches_from};
ghost use Rattle.declarations.specs.Inner.Tables.{TableRoom};
ghost use Rattle.translate.specs.Inner.Descent.{free_scope};
ghost use Rattle.watch.specs.Services.{reported as reportedOf, report_of, watch_of};
ghost use Rattle.watch.specs.Results.{after_watch, WatchedWithin};
ghost use Rattle.watch.specs.Inner.Reports.{FailedWithin, WatchCode, CountedWatches};

use limits::Refusal;

// What is reported: the place, or -1 where the watch has not failed.
fn reported(failed: Option<usize>) -> i64
    requires { FailedWithin failed }
    ensures { result ≡ reportedOf (failed_at failed) }
{
    match failed {
        Some(place) => place as i64,
        None => -1,
    }
}

// One watch, whose code ends at `end`, that of its first condition at `middle`, over states of `size` numbers.
fn walk(
    code: &[u8],
    middle: usize,
    end: usize,
    trace: &[i32],
    size: usize,
    places: usize,
    vals: &mut [i32],
) -> Option<usize>
    requires middle_le_end { (middle ≤ end) × (end ≤ length code.now) }
    requires stack_limit_in_bounds { (stack_limit ≤ length vals.old) × (places * size ≡ length trace.now) }
    ensures { (w : Watch) → WatchCode w size middle end code.now → failed_at result ≡ first_failure w (places_of (states_of places size trace.now)) }
{
    if middle == end {
        return evaluation::walk_alone(&code[..middle], trace, size, places, vals);
    }
    evaluation::walk_paired(
        &code[..middle],
        &code[middle..end],
        trace,
        size,
        places,
        vals,
    )
}

// The report of each of the watches, of which there are `count` from `at` on, over states of `size` numbers, the names' values first.
// They were read before, so that nothing is refused.
fn reports(
    text: &[u8],
    starts: &[usize],
    ends: &[usize],
    names: usize,
    at: usize,
    count: usize,
    trace: &[i32],
    size: usize,
    report: &mut [i64],
    code: &mut [u8],
    vals: &mut [i32],
)
    requires counted_watches { CountedWatches text.now starts.now ends.now names at count }
    requires names_le_size { (names ≤ size) × (size < 2 ^ 32) × (is_trace size trace.now ≡ true) }
    requires count_in_bounds { (count ≤ length report.old) × (image_room ≤ length code.old) × (stack_limit ≤ length vals.old) }
    ensures { (ws : List Watch) (m : ℕ) → watches_from watch_limit (free_scope text.now starts.now ends.now names) [] at ≡ accepted ws m
        → report.new ≡ sets report.old 0 (report_of ws (traced_states size trace.now)) }
{
    let places = lent::places(trace, size);
    let free = expressions::scope::first_names(names, names);
    let mut a = at;
    for i in 0..count {
        let word = lexer::token_at(text, a);
        let Ok(token) = word else {
            return;
        };
        let read = watches::watch(text, starts, ends, free, token.end, code, 0);
        let Ok(b) = read else {
            return;
        };
        let failed = walk(code, b.number, b.to, trace, size, places, vals);
        report[i] = reported(failed);
        a = b.at;
    }
}

// With lent memory for the names, the code of a watch and the values held.
fn watch_in(
    text: &[u8],
    trace: &[i32],
    report: &mut [i64],
    starts: &mut [usize],
    ends: &mut [usize],
    code: &mut [u8],
    vals: &mut [i32],
) -> Result<usize, Refusal>
    requires table_room { TableRoom starts.old ends.old 0 }
    requires image_room_in_bounds { (image_room ≤ length code.old) × (stack_limit ≤ length vals.old) }
    ensures report_after { after_watch result report.new ≡ watch_of text.now trace.now report.old }
    ensures watched_within { WatchedWithin result }
{
    let analysis = translate::analyse(text, starts, ends)?;
    let names = analysis.names;
    let count = analysis.watches;
    // a state: the value of each name, then the elapsed time of each timer
    let size = names + analysis.timers;
    if !lent::is_trace(trace, size) {
        return Err(Refusal::WrongLength);
    }
    if report.len() != limits::REPORT_LENGTH {
        return Err(Refusal::WrongLength);
    }
    reports(
        text,
        starts,
        ends,
        names,
        analysis.rules_end,
        count,
        trace,
        size,
        report,
        code,
        vals,
    );
    Ok(count)
}

// How many watches there are, each with its report.
pub fn watch(text: &[u8], trace: &[i32], report: &mut [i64]) -> Result<usize, Refusal>
    ensures report_after { after_watch result report.new ≡ watch_of text.now trace.now report.old }
    ensures watched_within { WatchedWithin result }
{
    let mut starts = [0usize; limits::NAME_LIMIT];
    let mut ends = [0usize; limits::NAME_LIMIT];
    let mut code = [0u8; limits::IMAGE_ROOM];
    let mut vals = [0i32; limits::STACK_LIMIT];
    watch_in(
        text,
        trace,
        report,
        &mut starts,
        &mut ends,
        &mut code,
        &mut vals,
    )
}
