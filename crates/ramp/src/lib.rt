// The ramp: how far past a closed signal a train gets that is braked there, and when. Document 01, "Ramp"; document 02, Card 5.
// Takes: `train_slope`, `ramp_plan`, `ramp_stop`. Gives: the operation `ramp`; to `query_release` the motion by itself (`start`,
// `stop_from`), to `query` refusal 6 (`of_times`).
#![tactic(auto)]

ghost use Rattle.std.specs.Prelude.{◌≡◌, [], ◌∷◌, ◌≤◌};
ghost use Rattle.train.specs.Gradient.{gradient_of};
ghost use Rattle.train.specs.Number.{number, refusal_of};
ghost use Rattle.train.specs.Refusal.{first_of};
ghost use Rattle.train.specs.Judged.{Judged};
ghost use Rattle.ramp.specs.Answer.{time_refusals, times_rule, inputs, refused, RampAnswers};
ghost use Rattle.ramp_plan.specs.Fair.{Small, Enough};
ghost use Rattle.ramp.specs.Begin.{Starts, Stops, from_speed};

use ramp_motion::{Overrun, Plan};
use train::refusal::Refusal;
use train::{Inertia, Kmh, Millimetre};

// How far the train gets, and the moment in ms; or a refusal and zeros, since C reads it.
#[repr(C)]
#[derive(Clone, Copy)]
pub struct Stop {
    pub refusal: u32,
    pub distance: Millimetre,
    pub moment: u32,
}

// What is turned away of TM and TR, in hundredths of a second. They stand side by side and are no struct, as in C's calls and in the
// contracts of both operations that take them (`RampAnswers`, `QueryAnswers`); what runs with them is `Overrun`.
pub fn of_times(tm: u32, tr: u32) -> Result<(), Refusal>
    ensures { (refusal_of result ≡ first_of (time_refusals tm tr)) × Judged (times_rule tm tr ∷ []) (refusal_of result) }
{
    if tm > 2000 || tr < 1 || tr > 3000 {
        return Err(Refusal::Times);
    }
    Ok(())
}

// What the inputs alone turn away.
fn turned_away(k: Inertia, o: Overrun) -> Result<(), Refusal>
    ensures { refusal_of result ≡ first_of (inputs k o) }
{
    train::refusal::of_weight(o.weight)?;
    if o.v.0 < 1 || o.v.0 > 100 {
        return Err(Refusal::Speed);
    }
    train::refusal::of_gradient(o.gradient)?;
    of_times(o.tm, o.tr)?;
    train::refusal::of_inertia(k)
}

// What stands before every answer: a refusal, or the motion in whole numbers.
pub fn start(k: Inertia, o: Overrun) -> Result<Plan, Refusal>
    ensures { Starts k o result }
{
    turned_away(k, o)?;
    let m = ramp_plan::plan_of(k, o);
    if !ramp_plan::is_strong(m) {
        return Err(Refusal::WeakBrake);
    }
    Ok(m)
}

// A refusal, with zeros.
impl From<Refusal> for Stop {
    ghost from_gives = { λ r answer. answer ≡ refused (number r) };

    fn from(r: Refusal) -> Stop {
        Stop {
            refusal: r.number(),
            distance: Millimetre(0),
            moment: 0,
        }
    }
}

// The place at the last millisecond before the train rolls back, raised, and 1 mm more for the rest of that millisecond.
fn stop_at(m: Plan) -> Stop
    requires { Small m × Enough m }
    ensures { Stops m result }
{
    let t = ramp_stop::search::last_forward(m);
    let mm = ramp_stop::place::place_up(m, t) + 1;
    Stop {
        refusal: 0,
        distance: Millimetre(mm),
        moment: t as u32,
    }
}

// The stop of a plan from v. Only the start of a plan changes with the speed, so a climb makes one plan for all its speeds.
pub fn stop_from(m: Plan, v: Kmh) -> Stop
    requires { Small m × Enough m × (v.0 ≤ 100) }
    ensures { Stops (from_speed m v.0) result }
{
    let start = 50000000000 * u64::from(v.0) * m.tr;
    stop_at(Plan { start, ..m })
}

// The answer; TM and TR in hundredths of a second, k the train's coefficients of the slope.
pub fn ramp(weight: u32, gradient: i32, v: Kmh, tm: u32, tr: u32, k: Inertia) -> Stop
    ensures { RampAnswers k (record { weight = weight; gradient = gradient_of gradient; v = v; tm = tm; tr = tr }) result }
{
    let o = Overrun {
        weight,
        gradient: train_slope::gradient_of(gradient),
        v,
        tm,
        tr,
    };
    match start(k, o) {
        Ok(m) => stop_at(m),
        Err(r) => Stop::from(r),
    }
}
