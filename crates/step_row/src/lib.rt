// Rows of the step model. Document 01, "Step distances"; document 02, Card 5.
// Takes: `step::start`, `step_braking`, `step_quick`. Gives: the operation `row`.
#![tactic(auto)]

ghost use Rattle.std.specs.Prelude.{◌≡◌, ℕ, ◌+◌, ◌≤◌, ◌<◌, ◌++◌, length, drop};
ghost use Rattle.lists.specs.Counted.{up_to};
ghost use Rattle.train.specs.Gradient.{gradient_of};
ghost use Rattle.step_braking.specs.Plan.{Small, Enough};
ghost use Rattle.step_curve.specs.Plan.{place_of};
ghost use Rattle.step_row.specs.Answer.{answer_of, RowAnswers};

use step_braking::{Course, strength};
use step_curve::Curve;
use train::refusal::Refusal;
use train::{Coefficients, Kmh, Train, Written};

// One curve's distances for n speeds from v0 on.
fn fill(curve: Curve, c: Course, v0: Kmh, n: usize, out: &mut [u32])
    requires { Small c × ((i : ℕ) → i < n → Enough c (v0.0 + i) v0.0) × (v0.0 + n ≤ 331) × (n ≤ length out.old) }
    ensures { out.new ≡ up_to (λ i. place_of curve c (v0.0 + i) v0.0) n ++ drop n out.old }
{
    for (k, place) in out[..n].iter_mut().enumerate() {
        let v = Kmh(v0.0 + k as u32);
        let b = step_quick::bounds_at(c, v, v0);
        *place = step_quick::distance(curve, c, v, v0, b).0;
    }
}

// A row's places, or why none is written. Of its speeds the train brakes weakest at the lowest or the highest.
fn written(
    curve: Curve,
    k: Coefficients,
    train: Train,
    v0: Kmh,
    gradient: i32,
    out: &mut [u32],
) -> Result<u32, Refusal>
    ensures { RowAnswers k train (gradient_of gradient) curve v0 out.old (answer_of result) out.new }
{
    let c = step::start(k, train, train.top, v0, v0, gradient)?;
    if !strength::is_strong(c, train.top, v0) {
        return Err(Refusal::WeakBrake);
    }
    let n = train.top.0 + 1 - v0.0;
    let places = n as usize;
    if places > out.len() {
        return Err(Refusal::Room);
    }
    fill(curve, c, v0, places, out);
    Ok(n)
}

// A row of one curve: its distances from every speed of v0 to the top speed, v0 first, with the train's coefficients k.
pub fn row(
    curve: Curve,
    k: Coefficients,
    train: Train,
    v0: Kmh,
    gradient: i32,
    out: &mut [u32],
) -> Written
    ensures { RowAnswers k train (gradient_of gradient) curve v0 out.old result out.new }
{
    match written(curve, k, train, v0, gradient, out) {
        Ok(length) => Written { refusal: 0, length },
        Err(r) => Written {
            refusal: r.number(),
            length: 0,
        },
    }
}
