// The plan of a motion, in whole numbers, and whether its brake is strong enough. Document 01, "Ramp".
// Takes: `ramp_motion`, `train_slope`. Gives: `plan_of`, `is_strong`, to `ramp`.
#![tactic(auto)]

ghost use Rattle.std.specs.Prelude.{◌≡◌, ◌+◌, ◌*◌, leb};
ghost use Rattle.train.specs.Coefficients.{InertiaWithin};
ghost use Rattle.ramp_motion.specs.Plan.{IsPlan};
ghost use Rattle.ramp_plan.specs.Fair.{Fair, Small};

use ramp_motion::{Overrun, Plan};
use train::Inertia;

// The plan of an overrun.
pub fn plan_of(k: Inertia, o: Overrun) -> Plan
    requires { InertiaWithin k × Fair o }
    ensures { IsPlan k o result × Small result }
{
    let tr = 10 * u64::from(o.tr);
    let pull = train_slope::pull_of(k, o.gradient);
    // dp = 0.9 × dr, in 10⁻⁷ m/s²
    let dp7 = 90 * train_slope::nominal(o.weight);
    // one km/h is 5/18 m/s, and the speed is in (10⁻¹⁰ m/s) / (18 tr)
    Plan {
        start: 50000000000 * u64::from(o.v.0) * tr,
        up: 18 * pull.up7 * tr,
        down: 18 * pull.dn7 * tr,
        brake: 9 * dp7,
        tm: 10 * u64::from(o.tm),
        tr,
    }
}

// Whether the train brakes at 0.05 m/s² or more once the brake acts in full.
pub fn is_strong(m: Plan) -> bool
    requires { Small m }
    ensures { result ≡ leb (m.down + 9000000 * m.tr) (2 * m.brake * m.tr + m.up) }
{
    m.down + 9000000 * m.tr <= 2 * m.brake * m.tr + m.up
}
