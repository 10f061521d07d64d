// One curve's distance at one pair of speeds, in whole numbers. Document 002, sections 7 and 8.
// Takes: a course and its strength (`step_braking`), `wide`, `wide_quotient`. Gives: a distance, and whether it fits into so many
// metres, to `step_quick` and `query_permitted`; `Curve`, to all that name one.
#![tactic(auto)]

ghost use Rattle.std.specs.Prelude.{◌≡◌, ◌*◌, leb};
ghost use Rattle.exact.specs.Fraction.{◌over◌, raised};
ghost use Rattle.wide.specs.Value.{value_of};
ghost use Rattle.step_braking.specs.Plan.{Small, Near, Enough};
ghost use Rattle.step_curve.specs.Plan.{service_of, warning_of, sum_of, IsTerms, Bounded};

use step_braking::{Course, strength};
use train::{Kmh, Metre, Millimetre};
use wide::Wide;

#[derive(Clone, Copy)]
pub enum Curve {
    Ebi,
    Sbi,
    W,
    P,
}

// What one pair of speeds gives, for every curve: the deceleration in m/s² / (10¹² s), s the greater of V and 1 km/h;
// Vβ and V in m/s / (9·10¹⁵); the braking part of a sum; what the sum is over to be millimetres.
// How large they are (`Bounded`) is no ghost field: laws that the promises name (`sum_is`, `over-is`) are of any terms.
#[derive(Clone, Copy)]
pub struct Terms {
    pub a: u64,
    pub beta: u64,
    pub speed: u64,
    pub part: Wide,
    pub scale: Wide,
}

// How often a curve counts tR + tf at Vβ, and 1.5 s at V.
#[derive(Clone, Copy)]
pub struct Ahead {
    pub service: u64,
    pub warning: u64,
}

// The terms of a train that is strong enough.
pub fn terms_at(c: Course, v: Kmh, v0: Kmh) -> Terms
    requires { Small c × Near v.0 v0.0 × Enough c v.0 v0.0 }
    ensures { IsTerms c v.0 v0.0 result }
{
    let speed = strength::fine(v);
    let target = strength::fine(v0);
    let s = strength::at(c, v, v0);
    let a = s.gain - s.loss;
    let beta = strength::beta(c, v, v0);
    let square = wide::product(beta - target, beta + target);
    let part = wide::times(square, 50000 * s.unit);
    // 81·10²⁰ a, in one product
    let scale = wide::product(810 * a, 10000000000000000000);
    Terms {
        a,
        beta,
        speed,
        part,
        scale,
    }
}

// How often the curve counts them.
pub fn ahead_of(curve: Curve) -> Ahead
    ensures { (result.service ≡ service_of curve) × (result.warning ≡ warning_of curve) }
{
    match curve {
        Curve::Ebi => Ahead {
            service: 0,
            warning: 0,
        },
        Curve::Sbi => Ahead {
            service: 1,
            warning: 0,
        },
        Curve::W => Ahead {
            service: 1,
            warning: 1,
        },
        Curve::P => Ahead {
            service: 1,
            warning: 2,
        },
    }
}

// The distance as a number over m.scale.
fn sum_of(curve: Curve, c: Course, m: Terms) -> Wide
    requires { Small c × Bounded m }
    ensures { value_of result ≡ sum_of curve c m }
{
    let ahead = ahead_of(curve);
    let steady = wide::product(c.t8 + ahead.service * c.r8, m.beta);
    let warning = wide::product(ahead.warning * 150000000, m.speed);
    let run = wide::sum(steady, warning);
    wide::sum(wide::times(run, 9 * m.a), m.part)
}

// One curve's distance.
pub fn distance(curve: Curve, c: Course, m: Terms) -> Millimetre
    requires { Small c × Bounded m }
    ensures { result.0 ≡ raised (sum_of curve c m over value_of m.scale) }
{
    Millimetre(wide_quotient::quotient_up(sum_of(curve, c, m), m.scale))
}

// Whether it is at most d, without a division.
pub fn fits(curve: Curve, c: Course, m: Terms, d: Metre) -> bool
    requires { Small c × Bounded m }
    ensures { result ≡ leb (sum_of curve c m) (value_of m.scale * (1000 * d.0)) }
{
    sum_of(curve, c, m) <= wide::times(m.scale, 1000 * u64::from(d.0))
}
