// How strongly the train brakes, and the speed that is left when it begins to. A speed and its target stand apart, with `Near` in each
// contract, and are no struct: a row and a climb change the one alone, and `weakest` has two speeds over one target. `Enough`, which
// stands in contracts above, is of a course and both speeds.
ghost use Rattle.std.specs.Prelude.{◌≡◌, ◌≤◌};
ghost use Rattle.step_braking.specs.Plan.{v9, s_of, gain_of, loss_of, strong_of, beta_of, a_most, Small, Near, Weakest};

use super::Course;
use train::Kmh;

// The deceleration is gain - loss in m/s² / (10¹² unit).
#[derive(Clone, Copy)]
pub struct Strength {
    pub unit: u64,
    pub gain: u64,
    pub loss: u64,
}

// The strength at one pair of speeds.
pub fn at(c: Course, v: Kmh, v0: Kmh) -> Strength
    requires { Small c × Near v.0 v0.0 }
    ensures { (result.unit ≡ s_of v.0) × (result.gain ≡ gain_of c v.0 v0.0) × (result.loss ≡ loss_of c v.0 v0.0) × (result.unit ≤ 330) × (result.gain ≤ a_most) × (result.loss ≤ a_most) }
{
    // 1 at standstill, where K0 is 1
    let unit = u64::from(v.0.max(1));
    let fast = u64::from(v.0.saturating_sub(c.vc.0));
    let brake = c.power * (100 * unit - c.cr * u64::from(v0.0));
    let slope = 100000 * unit;
    let gain = brake * (1000 + c.plus * fast) + c.up7 * slope;
    let loss = brake * (c.minus * fast) + c.dn7 * slope;
    Strength { unit, gain, loss }
}

// The strength at the one of two speeds at which the train brakes the weaker: at no speed between them does it brake weaker.
pub fn weakest(c: Course, from: Kmh, to: Kmh, v0: Kmh) -> Strength
    requires { Small c × Near from.0 v0.0 × Near to.0 v0.0 × (from.0 ≤ to.0) }
    ensures { Weakest c from.0 to.0 v0.0 result.unit result.gain result.loss }
{
    let first = at(c, from, v0);
    // Where nC is not below 0, it is the lower.
    if c.minus < 1 {
        return first;
    }
    let last = at(c, to, v0);
    if first.gain * last.unit + last.loss * first.unit
        <= last.gain * first.unit + first.loss * last.unit
    {
        first
    } else {
        last
    }
}

// Whether the train brakes at 0.05 m/s² or more.
pub fn is_strong(c: Course, v: Kmh, v0: Kmh) -> bool
    requires { Small c × Near v.0 v0.0 }
    ensures { result ≡ strong_of c v.0 v0.0 }
{
    let s = at(c, v, v0);
    s.loss + 50000000000 * s.unit <= s.gain
}

// A speed in m/s / (9·10¹⁵).
#[tactic(auto, unfolding(crate::specs::Plan::v9))]
pub fn fine(v: Kmh) -> u64
    requires { v.0 ≤ 330 }
    ensures { result ≡ v9 v.0 }
{
    u64::from(v.0) * 2500000000000000
}

// Vβ, as fine: the speed after T, never below the target.
pub fn beta(c: Course, v: Kmh, v0: Kmh) -> u64
    requires { Small c × Near v.0 v0.0 }
    ensures { result ≡ beta_of c v.0 v0.0 }
{
    let speed = fine(v) + 9 * c.dn7 * c.t8;
    speed.saturating_sub(9 * c.up7 * c.t8).max(fine(v0))
}
