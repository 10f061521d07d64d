// The step model: single distances. Document 01, "Step distances"; document 02, Card 5.
// Takes: `train_slope`, `step_course`, `step_braking`, `step_quick`. Gives: the operation `step`; to `step_row` a refusal or a
// course (`start`).
#![tactic(auto)]

ghost use Rattle.std.specs.Prelude.{◌≡◌, ◌≤◌};
ghost use Rattle.train.specs.Gradient.{gradient_of};
ghost use Rattle.train.specs.Refusal.{first_of};
ghost use Rattle.train.specs.Number.{number, refusal_of};
ghost use Rattle.step_braking.specs.Plan.{Small, Near, Enough};
ghost use Rattle.step.specs.Answer.{inputs, refused, StepAnswers};
ghost use Rattle.step.specs.Begin.{Starts, places_of};

use step_braking::Course;
use step_curve::Curve;
use train::refusal::{self, Refusal};
use train::{Coefficients, Gradient, Kmh, Millimetre, Train};

// The four distances, or a refusal and zeros, since C reads it.
#[repr(C)]
#[derive(Clone, Copy)]
pub struct Distances {
    pub refusal: u32,
    pub ebi: Millimetre,
    pub sbi: Millimetre,
    pub w: Millimetre,
    pub p: Millimetre,
}

// What the inputs alone turn away.
fn turned_away(k: Coefficients, train: Train, v: Kmh, v0: Kmh, g: Gradient) -> Result<(), Refusal>
    ensures { refusal_of result ≡ first_of (inputs k train g v v0) }
{
    refusal::of_train(train)?;
    if v.0 > 330 || v0.0 > 330 {
        return Err(Refusal::Speed);
    }
    if v0.0 > v.0 {
        return Err(Refusal::Target);
    }
    refusal::of_gradient(g)?;
    refusal::of_coefficients(k)
}

// What stands before every distance. The train is to be strong enough at the speed `at`, which lies between v0 and v.
pub fn start(
    k: Coefficients,
    train: Train,
    v: Kmh,
    v0: Kmh,
    at: Kmh,
    gradient: i32,
) -> Result<Course, Refusal>
    requires { v0.0 ≤ v.0 → (v0.0 ≤ at.0) × (at.0 ≤ v.0) }
    ensures { Starts k train (gradient_of gradient) v v0 at result }
{
    let g = train_slope::gradient_of(gradient);
    turned_away(k, train, v, v0, g)?;
    let c = step_course::course_of(k, train, g);
    if !step_braking::strength::is_strong(c, at, v0) {
        return Err(Refusal::WeakBrake);
    }
    Ok(c)
}

// A refusal, with zeros.
impl From<Refusal> for Distances {
    ghost from_gives = { λ r answer. answer ≡ refused (number r) };

    fn from(r: Refusal) -> Distances {
        Distances {
            refusal: r.number(),
            ebi: Millimetre(0),
            sbi: Millimetre(0),
            w: Millimetre(0),
            p: Millimetre(0),
        }
    }
}

// The four distances of a train that is strong enough.
fn distances_at(c: Course, v: Kmh, v0: Kmh) -> Distances
    requires { Small c × Near v.0 v0.0 × Enough c v.0 v0.0 }
    ensures { result ≡ places_of c v v0 }
{
    let b = step_quick::bounds_at(c, v, v0);
    Distances {
        refusal: 0,
        ebi: step_quick::distance(Curve::Ebi, c, v, v0, b),
        sbi: step_quick::distance(Curve::Sbi, c, v, v0, b),
        w: step_quick::distance(Curve::W, c, v, v0, b),
        p: step_quick::distance(Curve::P, c, v, v0, b),
    }
}

// The four distances from v to the target v0, with the train's coefficients k.
pub fn step(k: Coefficients, train: Train, v: Kmh, v0: Kmh, gradient: i32) -> Distances
    ensures { StepAnswers k train (gradient_of gradient) v v0 result }
{
    match start(k, train, v, v0, v, gradient) {
        Ok(c) => distances_at(c, v, v0),
        Err(r) => Distances::from(r),
    }
}
