// The delay of the brake: document 002, section 7.1.1.
// Takes: `train`. Gives: the delay of a train, to `step_course`.
#![tactic(auto)]

ghost use Rattle.std.specs.Prelude.{◌≤◌, ◌≡◌};
ghost use Rattle.exact.specs.Fraction.{◌over◌, ◌≈q◌};
ghost use Rattle.train_delay.specs.Delay.{row_of, row_delay, delay};

use train::{BrakeType, Metre, Train};

// A row's coefficients, in hundredths.
#[derive(Clone, Copy)]
pub struct DelayRow {
    pub a: u32,
    pub c: u32,
}

// Document 002's first values, one row for each brake type: the form that document 01 names (docs/PROMISES.md, Language forms).
const ROWS: [DelayRow; 2] = [DelayRow { a: 350, c: 15 }, DelayRow { a: 1350, c: 4 }];

// A brake type's row.
fn row_of(brake: BrakeType) -> DelayRow
    ensures { result ≡ row_of brake }
{
    match brake {
        BrakeType::Passenger => ROWS[0],
        BrakeType::Freight => ROWS[1],
    }
}

// A row's delay at a length, in millionths of a second.
fn row_delay(brake: BrakeType, length: Metre) -> u32
    requires { length.0 ≤ 1000 }
    ensures { (result over 1000000 ≈q row_delay brake length) × (result ≤ 18500000) }
{
    let row = row_of(brake);
    row.a * 10000 + row.c * (length.0 * length.0)
}

// The train's delay, in millionths of a second.
pub fn of_train(train: Train) -> u32
    requires { train.length.0 ≤ 1000 }
    ensures { (result over 1000000 ≈q delay train) × (result ≤ 18500000) }
{
    let counted = if train.electropneumatic {
        Metre(0)
    } else {
        train.length
    };
    let passenger = row_delay(BrakeType::Passenger, counted);
    match train.brake {
        BrakeType::Passenger => passenger,
        BrakeType::Freight => passenger.max(row_delay(BrakeType::Freight, train.length)),
    }
}
