// The course of a train on a gradient, from document 002's coefficients. Sections 7 to 7.3 and, for tR, 8.1.
// Takes: delay and slope in whole numbers (`train_delay`, `train_slope`). Gives: `course_of`, to `step` and `query_permitted`.
#![tactic(auto)]

ghost use Rattle.std.specs.Prelude.{◌≤◌};
ghost use Rattle.train.specs.Coefficients.{Within};
ghost use Rattle.train.specs.Gradient.{Moderate};
ghost use Rattle.step_braking.specs.Agreement.{IsCourse};

use step_braking::Course;
use train::{Coefficients, Gradient, Train};

// The course of a train on a gradient.
pub fn course_of(k: Coefficients, train: Train, g: Gradient) -> Course
    requires { Within k × (train.weight ≤ 160) × (train.length.0 ≤ 1000) × Moderate g }
    ensures { IsCourse k train g result }
{
    let tf8 = u64::from(k.dt) * u64::from(train_delay::of_train(train));
    let pull = train_slope::pull_of(k.inertia, g);
    Course {
        t8: u64::from(k.h) * 10000000 + tf8,
        r8: 100000000 + tf8,
        up7: pull.up7,
        dn7: pull.dn7,
        power: u64::from(k.kr) * train_slope::nominal(train.weight),
        cr: u64::from(k.cr),
        plus: u64::from(k.nc.plus),
        minus: u64::from(k.nc.minus),
        vc: k.vc,
    }
}
