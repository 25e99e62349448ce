//! Which machine a job goes to.

ghost use Rattle.std.specs.Prelude.{◌≡◌, ◌≤◌, length, not, position};
ghost use Rattle.tp_farm.specs.MachineChoice.{end_of, is_accepted, is_end, is_refused, least_end, lesser, place_for};

use tp_base::Tick;
use tp_stream::Probe;

fn end_of(answer: Probe) -> Option<Tick>
    ensures { result ≡ end_of answer }
{
    match answer {
        Probe::Ends(end) => Some(end),
        _ => None,
    }
}

fn lesser(end: Option<Tick>, other: Option<Tick>) -> Option<Tick>
    ensures { result ≡ lesser end other }
{
    match (end, other) {
        (None, other) => other,
        (Some(end), None) => Some(end),
        (Some(end), Some(other)) => Some(end.min(other)),
    }
}

/// The least end that is answered.
fn least_end(answers: &[Probe]) -> Option<Tick>
    ensures { result ≡ least_end answers.now }
{
    match answers {
        [] => None,
        [answer, rest @ ..] => lesser(end_of(*answer), least_end(rest)),
    }
}

fn is_end(end: Tick, answer: Probe) -> bool
    ensures { result ≡ is_end end answer }
{
    match answer {
        Probe::Ends(other) => other == end,
        _ => false,
    }
}

fn is_refused(answer: Probe) -> bool
    ensures { result ≡ is_refused answer }
{
    match answer {
        Probe::Refused => true,
        _ => false,
    }
}

fn first_end(answers: &[Probe], end: Tick) -> Option<usize>
    ensures { result ≡ position (is_end end) answers.now }
{
    answers.iter().position(|answer| is_end(end, *answer))
}

fn first_accepted(answers: &[Probe]) -> Option<usize>
    ensures { result ≡ position (λ answer. not (is_refused answer)) answers.now }
{
    answers.iter().position(|answer| !is_refused(*answer))
}

/// The place of the machine that a job goes to, counted from 0: of the machines with the least end the first. Where none
/// answers an end it is the first that doesn't refuse, and where all refuse the first.
pub(crate) fn choose(answers: &[Probe]) -> usize
    ensures place { result ≡ place_for answers.now }
    ensures within { result ≤ length answers.now }
{
    let place = match least_end(answers) {
        Some(end) => first_end(answers, end),
        None => first_accepted(answers),
    };
    place.unwrap_or(0)
}

/// Whether the machine at the place accepts the job.
pub(crate) fn is_accepted(answers: &[Probe], place: usize) -> bool
    ensures { result ≡ is_accepted answers.now place }
{
    match answers.get(place) {
        Some(answer) => !is_refused(*answer),
        None => false,
    }
}
