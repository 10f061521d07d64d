// What is turned away, by the numbers of documents 01 and 02; and what is turned away of a train, of a gradient and of coefficients.
ghost use Rattle.std.specs.Prelude.{◌≡◌, [], ◌∷◌};
ghost use Rattle.train.specs.Number.{number, refusal_of};
ghost use Rattle.train.specs.Refusal.{first_of, weight_refusals, length_refusals, train_refusals, gradient_refusals, outside_of, inertia_refusals, coefficient_refusals};
ghost use Rattle.train.specs.Judged.{Judged, weight_rule, length_rule, train_rules, gradient_rule, inertia_rule, coefficient_rule};

use super::{Coefficients, Gradient, Inertia, Metre, Train};

// Why a call is refused, each case under its number. Room: a lent list or buffer is too short; Number: no such signal or stretch.
#[derive(Clone, Copy, Debug, PartialEq, Eq)]
pub enum Refusal {
    BrakedWeight = 1,
    Length = 2,
    Speed = 3,
    Target = 4,
    Gradient = 5,
    Times = 6,
    Sheet = 7,
    Number = 8,
    Head = 9,
    WeakBrake = 10,
    Room = 11,
    Coefficient = 12,
}

impl Refusal {
    // The number that C gets.
    pub fn number(self) -> u32
        ensures { result ≡ number self }
    {
        self as u32
    }
}

// Of a braked weight percentage.
pub fn of_weight(weight: u32) -> Result<(), Refusal>
    ensures { (refusal_of result ≡ first_of (weight_refusals weight)) × Judged (weight_rule weight ∷ []) (refusal_of result) }
{
    if weight < 45 || weight > 160 || weight % 5 > 0 {
        return Err(Refusal::BrakedWeight);
    }
    Ok(())
}

// Of a train's length.
pub fn of_length(length: Metre) -> Result<(), Refusal>
    ensures { (refusal_of result ≡ first_of (length_refusals length.0)) × Judged (length_rule length.0 ∷ []) (refusal_of result) }
{
    if length.0 > 1000 {
        return Err(Refusal::Length);
    }
    Ok(())
}

// Of a train: its braked weight, its length, its top speed.
pub fn of_train(train: Train) -> Result<(), Refusal>
    ensures { (refusal_of result ≡ first_of (train_refusals train)) × Judged (train_rules train) (refusal_of result) }
{
    of_weight(train.weight)?;
    of_length(train.length)?;
    if train.top.0 < 1 || train.top.0 > 330 {
        return Err(Refusal::Speed);
    }
    Ok(())
}

// Of a gradient.
pub fn of_gradient(g: Gradient) -> Result<(), Refusal>
    ensures { (refusal_of result ≡ first_of (gradient_refusals g)) × Judged (gradient_rule g ∷ []) (refusal_of result) }
{
    if g.rise > 35 || g.fall > 35 {
        return Err(Refusal::Gradient);
    }
    Ok(())
}

// Whether a number is outside its span.
fn outside(n: u32, least: u32, most: u32) -> bool
    ensures { result ≡ outside_of least most n }
{
    n < least || n > most
}

// Of the coefficients of the slope.
pub fn of_inertia(k: Inertia) -> Result<(), Refusal>
    ensures { (refusal_of result ≡ first_of (inertia_refusals k)) × Judged (inertia_rule k ∷ []) (refusal_of result) }
{
    if outside(k.ki1, 80, 120)
        || outside(k.ki2, 80, 120)
        || outside(k.ki3, 80, 120)
        || k.i1 > 35
        || k.i2.rise > 0
        || k.i2.fall > 35
    {
        return Err(Refusal::Coefficient);
    }
    Ok(())
}

// Of a train's coefficients.
pub fn of_coefficients(k: Coefficients) -> Result<(), Refusal>
    ensures { (refusal_of result ≡ first_of (coefficient_refusals k)) × Judged (coefficient_rule k ∷ []) (refusal_of result) }
{
    if k.dt > 200
        || k.h > 50
        || outside(k.kr, 30, 150)
        || k.cr > 10
        || k.nc.plus > 10
        || k.nc.minus > 10
        || k.vc.0 > 400
        || k.vc.0 % 5 > 0
    {
        return Err(Refusal::Coefficient);
    }
    of_inertia(k.inertia)
}
