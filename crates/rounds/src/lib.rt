// Shares for several rule sets: a visit to one, on its image, its state and the memory of its paused scan; a round of visits in order, over
// memory lent for all of them together.
#![tactic(auto)]

ghost use Rattle.std.specs.Prelude.{◌≡◌, [], ◌∷◌, ◌+◌, ◌≤◌, length, set};
ghost use Rattle.limits.specs.Limits.{image_limit};
ghost use Rattle.paused.specs.Responses.{packed_response, steps_in, ResponseWithin};
ghost use Rattle.lifecycle.specs.Calls.{after_finish};
ghost use Rattle.rounds.specs.Visits.{share_in_limit, with_steps, given, visit_of, sets_in_limit};
ghost use Rattle.rounds.specs.Together.{together, visits_of, rounded, call_of};

use paused::Response;

// A share of 1 to 65,536 steps.
fn share_fits(share: usize) -> bool
    ensures { result ≡ share_in_limit share }
{
    (1..=limits::SHARE_LIMIT).contains(&share)
}

// How many steps an instalment did.
fn steps_in(response: Response) -> usize
    requires { ResponseWithin image_limit response }
    ensures { (result ≡ steps_in response) × (result ≤ image_limit) }
{
    match response {
        Response::Done(n) | Response::Refused(_, _, n) | Response::Unfinished(n) => n,
        Response::Idle => 0,
    }
}

// The finish's answer, with the steps of this visit.
fn with_steps(steps: usize, response: Response) -> Response
    requires { (steps ≤ image_limit) × ResponseWithin image_limit response }
    ensures value { result ≡ with_steps steps response }
    ensures response_within { ResponseWithin image_limit result }
{
    match response {
        Response::Done(_) => Response::Done(steps),
        Response::Refused(number, place, _) => Response::Refused(number, place, steps),
        Response::Unfinished(_) => Response::Unfinished(steps),
        Response::Idle => Response::Idle,
    }
}

// The scan under way gets its share, then its finish is asked for. Called in place: of a visit with nothing to do the calls are all that there is.
#[inline]
fn give(paused: &mut [i32], image: &[u8], state: &mut [i32], share: usize) -> Response
    ensures state_after { after_finish result paused.new state.new ≡ given image.now share paused.old state.old }
    ensures response_within { ResponseWithin image_limit result }
{
    let advanced = resumable::advance(paused, image, share);
    let steps = steps_in(advanced);
    let over = lifecycle::finish(paused, state);
    with_steps(steps, over)
}

// A waiting row is started if no scan is unfinished; then share and finish. A refused start is answered instead.
pub fn visit(paused: &mut [i32], image: &[u8], state: &mut [i32], share: usize) -> Response
    ensures state_after { after_finish result paused.new state.new ≡ visit_of image.now share paused.old state.old }
    ensures response_within { ResponseWithin image_limit result }
{
    let fits = share_fits(share);
    if !fits {
        return Response::Refused(limits::OUT_OF_SHARE, 0, 0);
    }
    let begun = lifecycle::begin(paused, image, state);
    match begun {
        Response::Done(_) => give(paused, image, state, share),
        Response::Refused(number, place, n) => Response::Refused(number, place, n),
        Response::Unfinished(_) => give(paused, image, state, share),
        Response::Idle => give(paused, image, state, share),
    }
}

// The answer of a visit as one number, where there is room for it.
fn answer(answers: &mut [u64], i: usize, response: Response)
    requires { ResponseWithin image_limit response }
    ensures { answers.new ≡ set answers.old i (packed_response response) }
{
    if i < answers.len() {
        answers[i] = paused::pack_response(response);
    }
}

// The sets of a table, three numbers each: bytes of the image, numbers of the state, share.
fn visit_all(
    paused: &mut [i32],
    images: &[u8],
    states: &mut [i32],
    table: &[usize],
    answers: &mut [u64],
    i: usize,
)
    requires { i + length table.now ≤ 24 }
    ensures { together paused.new states.new answers.new
        ≡ visits_of table.now images.now i (together paused.old states.old answers.old) }
{
    if table.len() < 3 {
        return;
    }
    let cells = limits::PAUSED_LENGTH.min(paused.len());
    let bytes = table[0].min(images.len());
    let size = table[1].min(states.len());
    let response = visit(
        &mut paused[..cells],
        &images[..bytes],
        &mut states[..size],
        table[2],
    );
    answer(answers, i, response);
    visit_all(
        &mut paused[cells..],
        &images[bytes..],
        &mut states[size..],
        &table[3..],
        answers,
        i + 1,
    )
}

// At most so many sets, three numbers each, every share in limit.
fn in_limit(most: usize, table: &[usize]) -> bool
    ensures { result ≡ sets_in_limit most table.now }
{
    if table.len() < 1 {
        return true;
    }
    if most < 1 {
        return false;
    }
    if table.len() < 3 {
        return false;
    }
    let fits = share_fits(table[2]);
    if !fits {
        return false;
    }
    in_limit(most - 1, &table[3..])
}

// 0; or 25 a count or share out of limit, before any visit.
pub fn round(
    paused: &mut [i32],
    images: &[u8],
    states: &mut [i32],
    table: &[usize],
    answers: &mut [u64],
) -> u8
    ensures { rounded result (together paused.new states.new answers.new)
        ≡ call_of table.now images.now (together paused.old states.old answers.old) }
{
    if table.len() < 1 {
        return limits::OUT_OF_SHARE;
    }
    let fits = in_limit(limits::SET_LIMIT, table);
    if !fits {
        return limits::OUT_OF_SHARE;
    }
    visit_all(paused, images, states, table, answers, 0);
    0
}
