// The permitted speed: the highest up to which each speed can still be braked to the release speed before the signal.
// Document 01, "Approach"; document 02, Card 5.
// Takes: `step_course`, `step_braking`, `step_curve`, `step_quick`, `query_climb`. Gives: `speed`, refusal 10 of the step model
// among its answers, to `query`.
#![tactic(auto)]

ghost use Rattle.std.specs.Prelude.{◌≡◌, true, ◌+◌, ◌-◌, ◌≤◌, ◌<◌};
ghost use Rattle.train.specs.Coefficients.{Within};
ghost use Rattle.train.specs.Gradient.{Moderate};
ghost use Rattle.train.specs.Units.{kmh};
ghost use Rattle.step_braking.specs.Plan.{Small, Near};
ghost use Rattle.query_climb.specs.Climb.{climb};
ghost use Rattle.query_climb.specs.Sure.{Sure};
ghost use Rattle.query_permitted.specs.Permitted.{Permits};
ghost use Rattle.query_permitted.specs.Find.{fits_by, Climbing};

use step_braking::{Course, strength};
use step_curve::Curve;
use train::refusal::Refusal;
use train::{Coefficients, Gradient, Kmh, Metre, Train};

// That the release speed itself does not fit; or the last speed that does.
#[derive(Clone, Copy)]
pub enum Permitted {
    Release,
    Curve(Kmh),
}

// Whether the train is strong enough at v, and its P distance, braking to v0, at most d.
fn fits(c: Course, v: Kmh, v0: Kmh, d: Metre) -> bool
    requires { Small c × Near v.0 v0.0 }
    ensures { result ≡ fits_by c v0.0 d.0 v.0 }
{
    strength::is_strong(c, v, v0)
        && step_curve::fits(Curve::P, c, step_curve::terms_at(c, v, v0), d)
}

// Whether each of the next speeds after low surely fits.
fn next_sure(c: Course, v0: Kmh, d: Metre, low: u32, stride: u32, end: u32) -> bool
    requires { Climbing c v0 (kmh end) × (v0.0 ≤ low) × (low ≤ end) × (0 < stride) }
    ensures { result ≡ true → Sure (fits_by c v0.0 d.0) low (low + stride) × (low + stride ≤ end) }
{
    stride <= end - low && step_quick::surely_fit(c, Kmh(low + 1), Kmh(low + stride), v0, d)
}

// A speed up to which the climb need not ask: the bounds show many speeds at once, ever fewer where the distance gets short.
// A stride serves as often as it can, so a `for` over the strides would need a second loop in it.
fn surely_fitting(c: Course, v0: Kmh, d: Metre, top: Kmh) -> Kmh
    requires { Climbing c v0 top }
    ensures { Sure (fits_by c v0.0 d.0) v0.0 result.0 × (v0.0 ≤ result.0) × (result.0 ≤ top.0) }
{
    let mut low = v0.0;
    let mut stride = 64;
    while stride > 0 {
        if next_sure(c, v0, d, low, stride, top.0) {
            low += stride;
        } else {
            stride /= 2;
        }
    }
    Kmh(low)
}

// The climb from v0, which fits. Each speed up to the sure one does too, so the climb, and with it the wide numbers, begins there.
fn last_fitting(c: Course, v0: Kmh, d: Metre, top: Kmh) -> Kmh
    requires { Climbing c v0 top }
    ensures { result.0 ≡ climb (fits_by c v0.0 d.0) v0.0 (top.0 - v0.0) }
{
    let surely = surely_fitting(c, v0, d, top);
    query_climb::climb(surely, top, |v| fits(c, v, v0, d))
}

// The permitted speed, d metres before the signal, with v0 the release speed; or refusal 10: the brake is too weak on the way.
pub fn speed(
    k: Coefficients,
    train: Train,
    g: Gradient,
    v0: Kmh,
    d: Metre,
) -> Result<Permitted, Refusal>
    requires { Within k × (train.weight ≤ 160) × (train.length.0 ≤ 1000) × Moderate g × (v0.0 ≤ train.top.0) × (train.top.0 ≤ 330) }
    ensures { Permits k train g v0 d result }
{
    let c = step_course::course_of(k, train, g);
    if !strength::is_strong(c, v0, v0) {
        return Err(Refusal::WeakBrake);
    }
    if !fits(c, v0, v0, d) {
        return Ok(Permitted::Release);
    }
    Ok(Permitted::Curve(last_fitting(c, v0, d, train.top)))
}
