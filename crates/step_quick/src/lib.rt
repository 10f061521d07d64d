// Distances from bounds of one word each. They nearly always leave one number of millimetres, or show that a distance is at most
// so many metres; where they do not, the wide numbers of `step_curve` are asked.
// Takes: a course (`step_braking`), and `step_curve` where bounds do not decide. Gives: the same distance, and speeds that surely
// fit, to `step`, `step_row` and `query_permitted`.
#![tactic(auto)]

ghost use Rattle.std.specs.Prelude.{◌≡◌, true, ℕ, ◌+◌, ◌*◌, ◌-◌, ◌^◌, ◌≤◌};
ghost use Rattle.step_braking.specs.Plan.{s_of, a_most, Small, Near, Enough};
ghost use Rattle.step_curve.specs.declared.Curve.TheVariants.{P};
ghost use Rattle.step_curve.specs.Plan.{a_of, sum_at, place_of};
ghost use Rattle.step_quick.specs.Bounds.{IsBounds, IsRun};

use step_braking::strength::Strength;
use step_braking::{Course, strength};
use step_curve::Curve;
use train::{Kmh, Metre, Millimetre};

// For every curve: Vβ in m/s / (9·10⁶), lowered; the braking part in µm is at least `part` and at most `most` over `a`. Both are
// s (Vβ² - V0²) / 64 over 81 decelerations / (32·10⁶), lowered and raised.
#[derive(Clone, Copy)]
pub struct Bounds {
    pub beta: u64,
    pub a: u64,
    pub part: u64,
    pub most: u64,
}

// The run at the steady speeds in µm is from low to high.
#[derive(Clone, Copy)]
struct Run {
    low: u64,
    high: u64,
}

// The bounds with a deceleration, and the speed that is left at v.
fn bounds_with(c: Course, s: Strength, v: Kmh, v0: Kmh) -> Bounds
    requires { Small c × Near v.0 v0.0 × (s.unit ≤ 330) × (s.gain ≤ a_most) × (s.loss + 50000000000 * s.unit ≤ s.gain) }
    ensures { IsBounds c (s.gain - s.loss) s.unit v.0 v0.0 result }
{
    // V0 is a whole number of these units
    let target = 2500000 * u64::from(v0.0);
    let low = strength::beta(c, v, v0) / 1000000000;
    let high = low + 1;
    let a = 81 * (s.gain - s.loss) / 32000000;
    let part = (low - target) * (low + target) / 64 * s.unit / (a + 1);
    let most = ((high - target) * (high + target) / 64 + 1) * s.unit;
    Bounds {
        beta: low,
        a,
        part,
        most,
    }
}

// The bounds of one speed.
pub fn bounds_at(c: Course, v: Kmh, v0: Kmh) -> Bounds
    requires { Small c × Near v.0 v0.0 × Enough c v.0 v0.0 }
    ensures { IsBounds c (a_of c v.0 v0.0) (s_of v.0) v.0 v0.0 result }
{
    bounds_with(c, strength::at(c, v, v0), v, v0)
}

// The run of a curve, beta being Vβ as in the bounds.
fn run_at(curve: Curve, c: Course, beta: u64, v: Kmh) -> Run
    requires { Small c × (beta ≤ 980743560) × (v.0 ≤ 330) }
    ensures { IsRun curve c beta v.0 result }
{
    let ahead = step_curve::ahead_of(curve);
    let steady = c.t8 + ahead.service * c.r8;
    let low = (steady * beta + ahead.warning * 375000000000000 * u64::from(v.0)) / 900000000;
    let high = low + steady / 900000000 + 2;
    Run { low, high }
}

// A curve's distance from the bounds of its speeds.
pub fn distance(curve: Curve, c: Course, v: Kmh, v0: Kmh, b: Bounds) -> Millimetre
    requires { Small c × Near v.0 v0.0 × Enough c v.0 v0.0 × IsBounds c (a_of c v.0 v0.0) (s_of v.0) v.0 v0.0 b }
    ensures { result.0 ≡ place_of curve c v.0 v0.0 }
{
    let run = run_at(curve, c, b.beta, v);
    let n = (run.low + b.part).div_ceil(1000);
    let end = 1000 * n;
    if run.high <= end && b.most <= b.a * (end - run.high) {
        return Millimetre(n as u32);
    }
    step_curve::distance(curve, c, step_curve::terms_at(c, v, v0))
}

// d metres in µm; of more than 500 km, the longest line, the 500.
fn room_of(d: Metre) -> u64
    ensures { (result ≤ 1000000 * d.0) × (result ≤ 500000000000) }
{
    1000000 * u64::from(d.0.min(500000))
}

// That at every speed from one to another the train is strong enough and its P distance at most d, where the bounds show it. It
// is worked out once: with the weakest deceleration and the speeds of the last. In 256 µm the room times a is no longer than a word.
pub fn surely_fit(c: Course, from: Kmh, to: Kmh, v0: Kmh, d: Metre) -> bool
    requires { Small c × Near from.0 v0.0 × Near to.0 v0.0 × (from.0 ≤ to.0) }
    ensures { result ≡ true → (v : ℕ) → from.0 ≤ v → v ≤ to.0 → Enough c v v0.0 × (sum_at P c v v0.0 ≤ 81 * 10 ^ 20 * a_of c v v0.0 * (1000 * d.0)) }
{
    let s = strength::weakest(c, from, to, v0);
    if s.gain < s.loss + 50000000000 * s.unit {
        return false;
    }
    let b = bounds_with(c, s, to, v0);
    let run = run_at(Curve::P, c, b.beta, to);
    let room = room_of(d);
    if room < run.high {
        return false;
    }
    b.most / 256 < b.a * ((room - run.high) / 256)
}
