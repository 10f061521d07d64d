// The approach query: how fast a train may come up to a closed signal, and how fast it may creep past. Document 01, "Approach";
// document 02, Cards 2, 4 and 5.
// Takes: `query_way`, `query_release`, `query_permitted`, `ramp` for refusal 6, `ceilings`. Gives: the operation `query`, and the
// third demand.
#![tactic(auto)]

ghost use Rattle.std.specs.Prelude.{◌≡◌};
ghost use Rattle.train.specs.Coefficients.{Within};
ghost use Rattle.train.specs.Number.{number};
ghost use Rattle.query.specs.Answer.{refused, answered, QueryAnswers};
ghost use Rattle.query.specs.Begin.{number_of, record_of, Starts, Fit, FitAhead, answer_at, answer_on};

use ceilings::Ceiling;
use query_permitted::Permitted;
use query_way::{Governing, Way};
use ramp_motion::Overrun;
use train::refusal::Refusal;
use train::{Coefficients, Kmh, Metre, Train};

// The release speed, the permitted speed, what holds it (mark 1: the curve, 2: the release speed), the ceilings of the permitted
// speed, and the numbers of the stretches that govern the overlap (65,535 where it has no length) and the way ahead; or a refusal and
// zeros. C reads it: hence numbers for refusal and mark.
#[repr(C)]
#[derive(Clone, Copy)]
pub struct Answer {
    pub refusal: u32,
    pub release: Kmh,
    pub permitted: Kmh,
    pub mark: u32,
    pub w: Ceiling,
    pub sbi: Ceiling,
    pub ebi: Ceiling,
    pub overlap_stretch: u32,
    pub ahead_stretch: u32,
}

// What holds the permitted speed, each case under its number.
#[derive(Clone, Copy)]
enum Mark {
    Curve = 1,
    Release = 2,
}

// A refusal, with zeros.
impl From<Refusal> for Answer {
    ghost from_gives = { λ r answer. answer ≡ refused (number r) };

    fn from(r: Refusal) -> Answer {
        Answer {
            refusal: r.number(),
            release: Kmh(0),
            permitted: Kmh(0),
            mark: 0,
            w: Ceiling(0),
            sbi: Ceiling(0),
            ebi: Ceiling(0),
            overlap_stretch: 0,
            ahead_stretch: 0,
        }
    }
}

// An answer, with the ceilings of the permitted speed.
fn given(governing: Governing, release: Kmh, permitted: Kmh, mark: Mark) -> Answer
    ensures { result ≡ answered governing release permitted (number_of mark) }
{
    let limits = ceilings::ceilings(permitted);
    Answer {
        refusal: 0,
        release,
        permitted,
        mark: mark as u32,
        w: limits.w,
        sbi: limits.sbi,
        ebi: limits.ebi,
        overlap_stretch: governing.overlap,
        ahead_stretch: governing.ahead,
    }
}

// What stands before every answer: the train, the times, the coefficients, the sheet, the signal and the head.
// k, train, tm and tr stand side by side here and below and are no struct, as in `Starts`, `Fit` and `QueryAnswers`.
fn start(
    k: Coefficients,
    train: Train,
    tm: u32,
    tr: u32,
    s: &[u8],
    signal: u32,
    head: Metre,
) -> Result<(Way, Governing), Refusal>
    ensures { Starts k train tm tr s.now signal head.0 result }
{
    train::refusal::of_train(train)?;
    ramp::of_times(tm, tr)?;
    train::refusal::of_coefficients(k)?;
    query_way::find(s, signal, head, train.length)
}

// The answer with a release speed.
fn answer_at(
    k: Coefficients,
    train: Train,
    w: Way,
    governing: Governing,
    release: Kmh,
) -> Result<Answer, Refusal>
    requires { Within k × FitAhead train w.ahead release }
    ensures { record_of result ≡ answer_at k train w.ahead w.distance governing release }
{
    match query_permitted::speed(k, train, w.ahead, release, w.distance)? {
        Permitted::Release => Ok(given(governing, release, release, Mark::Release)),
        Permitted::Curve(v) => Ok(given(governing, release, v, Mark::Curve)),
    }
}

// The answer on a way.
fn answer_on(
    k: Coefficients,
    train: Train,
    tm: u32,
    tr: u32,
    w: Way,
    governing: Governing,
) -> Result<Answer, Refusal>
    requires { Fit k train tm tr w }
    ensures { record_of result ≡ answer_on k train tm tr w governing }
{
    let o = Overrun {
        weight: train.weight,
        gradient: w.past,
        v: Kmh(1),
        tm,
        tr,
    };
    let release = query_release::speed(k.inertia, o, w.overlap, train.top)?;
    answer_at(k, train, w, governing, release)
}

// The answer or a refusal.
fn outcome(
    k: Coefficients,
    train: Train,
    tm: u32,
    tr: u32,
    s: &[u8],
    signal: u32,
    head: Metre,
) -> Result<Answer, Refusal>
    ensures { QueryAnswers k train tm tr s.now signal head.0 (record_of result) s.now }
{
    let (w, governing) = start(k, train, tm, tr, s, signal, head)?;
    answer_on(k, train, tm, tr, w, governing)
}

// The query: the train's coefficients, TM and TR in hundredths of a second, a line sheet, a signal's number from 0, the place of
// the train's head.
pub fn query(
    k: Coefficients,
    train: Train,
    tm: u32,
    tr: u32,
    s: &[u8],
    signal: u32,
    head: Metre,
) -> Answer
    ensures { QueryAnswers k train tm tr s.now signal head.0 result s.now }
{
    outcome(k, train, tm, tr, s, signal, head).unwrap_or_else(Answer::from)
}
