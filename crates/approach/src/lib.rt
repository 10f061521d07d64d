// What designers link: each operation of documents 01 and 02, as a C function. Each repeats the contract of the call below it.
// Takes: every operation, `approach_train`. Gives: libapproach.a.
#![tactic(auto)]

ghost use Rattle.std.specs.Prelude.{◌≡◌};
ghost use Rattle.train.specs.Units.{kmh};
ghost use Rattle.train.specs.Coefficients.{first};
ghost use Rattle.train.specs.Gradient.{gradient_of};
ghost use Rattle.step_curve.specs.declared.Curve.TheVariants.{Ebi, Sbi, W, P};
ghost use Rattle.step_row.specs.Answer.{RowAnswers};
ghost use Rattle.step.specs.Answer.{StepAnswers};
ghost use Rattle.ramp.specs.Answer.{RampAnswers};
ghost use Rattle.ceilings.specs.Answer.{CeilingAnswers};
ghost use Rattle.sheet.specs.Fields.{four_lists};
ghost use Rattle.sheet_lookup.specs.Answer.{StretchAnswers, SignalAnswers};
ghost use Rattle.sheet_mark.specs.Answer.{MoveAnswers};
ghost use Rattle.sheet_writer.specs.Answer.{Writes};
ghost use Rattle.query_back.specs.Answer.{BackAnswers};
ghost use Rattle.query.specs.Answer.{QueryAnswers};
ghost use Rattle.approach_train.specs.Entered.{train_of};
ghost use Rattle.approach_train.specs.Coefficients.{inertia_of, coefficients_of};

use approach_train::{Entered, EnteredCoefficients, EnteredInertia};
use ceilings::Limits;
use query::Answer;
use ramp::Stop;
use sheet_lookup::{Signal, Stretch};
use sheet_mark::{Mark, Move};
use sheet_walk::Back;
use step::Distances;
use step_curve::Curve;
use train::{Kmh, Metre, Written};

// Document 002's first values, from which a designer goes on.
#[unsafe(no_mangle)]
pub extern "C" fn approach_first_values() -> EnteredCoefficients
    ensures { coefficients_of result ≡ first }
{
    approach_train::first_values()
}

#[unsafe(no_mangle)]
pub extern "C" fn approach_step(train: Entered, v: u32, v0: u32, gradient: i32) -> Distances
    ensures { StepAnswers (coefficients_of train.coefficients) (train_of train) (gradient_of gradient) (kmh v) (kmh v0) result }
{
    let k = train.coefficients.into();
    step::step(k, train.into(), Kmh(v), Kmh(v0), gradient)
}

// An enum cannot cross the border, so there is a row for each curve.
fn row_of(curve: Curve, train: Entered, v0: u32, gradient: i32, row: &mut [u32]) -> Written
    ensures { RowAnswers (coefficients_of train.coefficients) (train_of train) (gradient_of gradient) curve (kmh v0) row.old result row.new }
{
    let k = train.coefficients.into();
    step_row::row(curve, k, train.into(), Kmh(v0), gradient, row)
}

#[unsafe(no_mangle)]
pub extern "C" fn approach_row_ebi(
    train: Entered,
    v0: u32,
    gradient: i32,
    row: &mut [u32],
) -> Written
    ensures { RowAnswers (coefficients_of train.coefficients) (train_of train) (gradient_of gradient) Ebi (kmh v0) row.old result row.new }
{
    row_of(Curve::Ebi, train, v0, gradient, row)
}

#[unsafe(no_mangle)]
pub extern "C" fn approach_row_sbi(
    train: Entered,
    v0: u32,
    gradient: i32,
    row: &mut [u32],
) -> Written
    ensures { RowAnswers (coefficients_of train.coefficients) (train_of train) (gradient_of gradient) Sbi (kmh v0) row.old result row.new }
{
    row_of(Curve::Sbi, train, v0, gradient, row)
}

#[unsafe(no_mangle)]
pub extern "C" fn approach_row_w(train: Entered, v0: u32, gradient: i32, row: &mut [u32]) -> Written
    ensures { RowAnswers (coefficients_of train.coefficients) (train_of train) (gradient_of gradient) W (kmh v0) row.old result row.new }
{
    row_of(Curve::W, train, v0, gradient, row)
}

#[unsafe(no_mangle)]
pub extern "C" fn approach_row_p(train: Entered, v0: u32, gradient: i32, row: &mut [u32]) -> Written
    ensures { RowAnswers (coefficients_of train.coefficients) (train_of train) (gradient_of gradient) P (kmh v0) row.old result row.new }
{
    row_of(Curve::P, train, v0, gradient, row)
}

#[unsafe(no_mangle)]
pub extern "C" fn approach_ramp(
    braked_weight: u32,
    gradient: i32,
    v: u32,
    tm: u32,
    tr: u32,
    inertia: EnteredInertia,
) -> Stop
    ensures { RampAnswers (inertia_of inertia) (record { weight = braked_weight; gradient = gradient_of gradient; v = kmh v; tm = tm; tr = tr }) result }
{
    ramp::ramp(braked_weight, gradient, Kmh(v), tm, tr, inertia.into())
}

#[unsafe(no_mangle)]
pub extern "C" fn approach_ceilings(permitted: u32) -> Limits
    ensures { CeilingAnswers (kmh permitted) result }
{
    ceilings::ceilings(Kmh(permitted))
}

#[unsafe(no_mangle)]
pub extern "C" fn approach_ceilings_stored(permitted: u32) -> Limits
    ensures { CeilingAnswers (kmh permitted) result }
{
    ceilings_stored::stored(Kmh(permitted))
}

#[unsafe(no_mangle)]
pub extern "C" fn approach_sheet_write(
    starts: &[u32],
    gradients: &[i16],
    places: &[u32],
    overlaps: &[u16],
    line_end: u32,
    sheet: &mut [u8],
) -> Written
    ensures { Writes (four_lists starts.now gradients.now places.now overlaps.now line_end) (four_lists starts.now gradients.now places.now overlaps.now line_end) sheet.old result sheet.new }
{
    sheet_writer::write(starts, gradients, places, overlaps, Metre(line_end), sheet)
}

#[unsafe(no_mangle)]
pub extern "C" fn approach_sheet_stretch(sheet: &[u8], number: u32) -> Stretch
    ensures { StretchAnswers sheet.now number result sheet.now }
{
    sheet_lookup::read_stretch(sheet, number)
}

#[unsafe(no_mangle)]
pub extern "C" fn approach_sheet_signal(sheet: &[u8], number: u32) -> Signal
    ensures { SignalAnswers sheet.now number result sheet.now }
{
    sheet_lookup::read_signal(sheet, number)
}

#[unsafe(no_mangle)]
pub extern "C" fn approach_sheet_next(sheet: &[u8], mark: Mark) -> Move
    ensures { MoveAnswers sheet.now mark result sheet.now }
{
    mark.moved(sheet)
}

#[unsafe(no_mangle)]
pub extern "C" fn approach_sheet_back(
    sheet: &[u8],
    signal: u32,
    head: u32,
    train_length: u32,
    step: u32,
) -> Back
    ensures { BackAnswers sheet.now signal head train_length step result sheet.now }
{
    query_back::step_back(sheet, signal, Metre(head), Metre(train_length), step)
}

#[unsafe(no_mangle)]
pub extern "C" fn approach_query(
    train: Entered,
    tm: u32,
    tr: u32,
    sheet: &[u8],
    signal: u32,
    head: u32,
) -> Answer
    ensures { QueryAnswers (coefficients_of train.coefficients) (train_of train) tm tr sheet.now signal head result sheet.now }
{
    let k = train.coefficients.into();
    query::query(k, train.into(), tm, tr, sheet, signal, Metre(head))
}
