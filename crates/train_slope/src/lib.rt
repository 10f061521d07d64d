// What the line's gradient and the train's brake do to the speed: document 002, sections 7.2 and 7.3.4.
// Takes: `train`. Gives: a gradient as a rise or a fall, its pull and the nominal deceleration, to `step`, `step_course`, `ramp`,
// `ramp_plan`, `sheet_walk`, `approach_train` and `tables`.
#![tactic(auto)]

ghost use Rattle.std.specs.Prelude.{◌≡◌, ◌≤◌, ◌^◌};
ghost use Rattle.exact.specs.Fraction.{signed, ◌over◌, ◌≈q◌};
ghost use Rattle.train.specs.Gradient.{gradient_of, Moderate};
ghost use Rattle.train.specs.Coefficients.{InertiaWithin};
ghost use Rattle.train_slope.specs.Slope.{factor, di, dr};

use train::{Gradient, Inertia};

// A slope's deceleration in 10⁻⁷ m/s²: up7 of an uphill slope, which slows the train, or dn7 of a downhill one.
#[derive(Clone, Copy)]
pub struct Pull {
    pub up7: u64,
    pub dn7: u64,
}

// A signed number of per mille, positive uphill. By a name, and no From<i32>: the number alone does not say what it counts.
pub fn gradient_of(i: i32) -> Gradient
    ensures { result ≡ gradient_of i }
{
    let n = i.unsigned_abs();
    if i >= 0 {
        Gradient { rise: n, fall: 0 }
    } else {
        Gradient { rise: 0, fall: n }
    }
}

// Ki, the coefficient that a gradient takes, in hundredths.
#[tactic(auto, unfolding(crate::specs::Slope::factor))]
pub fn factor_of(k: Inertia, g: Gradient) -> u32
    requires { InertiaWithin k × Moderate g }
    ensures { result ≡ factor k g }
{
    if g.rise > k.i1 + g.fall {
        k.ki1
    } else if k.i2.rise + g.fall >= k.i2.fall + g.rise {
        k.ki3
    } else {
        k.ki2
    }
}

// di, the slope's deceleration.
pub fn pull_of(k: Inertia, g: Gradient) -> Pull
    requires { InertiaWithin k × Moderate g }
    ensures { (di k g ≈q signed result.up7 result.dn7 (10 ^ 7)) × (result.up7 ≤ 4120200) × (result.dn7 ≤ 4120200) }
{
    let slope = u64::from(factor_of(k, g)) * 981;
    Pull {
        up7: slope * u64::from(g.rise),
        dn7: slope * u64::from(g.fall),
    }
}

// dr, the nominal deceleration of a braked weight, in 10⁻⁵ m/s².
pub fn nominal(weight: u32) -> u64
    requires { weight ≤ 160 }
    ensures { (dr weight ≈q result over (10 ^ 5)) × (result ≤ 119000) }
{
    685 * u64::from(weight) + 9400
}
