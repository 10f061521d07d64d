// A train as C has it, and the train and the coefficients that it stands for: an enum cannot cross the border, and a number of
// either sign is two inside.
// Takes: `train`, `train_slope`. Gives: `Entered`, `EnteredInertia`, what they stand for, and the first values, to `approach`.
#![tactic(auto)]

ghost use Rattle.std.specs.Prelude.{◌≡◌};
ghost use Rattle.train.specs.Coefficients.{first};
ghost use Rattle.approach_train.specs.Entered.{train_of, Meant};
ghost use Rattle.approach_train.specs.Coefficients.{inertia_of, coefficients_of, InertiaMeant, CoefficientsMeant};

use train::{BrakeType, Coefficients, Inertia, Kmh, Metre, Signed, Train};

// The coefficients of the slope: Ki in hundredths, i1 and i2 in per mille, positive uphill.
#[repr(C)]
#[derive(Clone, Copy)]
pub struct EnteredInertia {
    pub ki1: u32,
    pub ki2: u32,
    pub ki3: u32,
    pub i1: u32,
    pub i2: i32,
}

// Document 002's coefficients: hundredths, but h tenths of a second, nc thousandths per km/h, vc km/h.
#[repr(C)]
#[derive(Clone, Copy)]
pub struct EnteredCoefficients {
    pub dt: u32,
    pub h: u32,
    pub kr: u32,
    pub cr: u32,
    pub nc: i32,
    pub vc: u32,
    pub inertia: EnteredInertia,
}

// Whether freight and whether the electropneumatic brake works, in a byte each: 0 is no, any other yes. The braked weight
// percentage, the length in metres, the top speed in km/h, the coefficients.
#[repr(C)]
#[derive(Clone, Copy)]
pub struct Entered {
    pub freight: u8,
    pub electropneumatic: u8,
    pub weight: u32,
    pub length: u32,
    pub top: u32,
    pub coefficients: EnteredCoefficients,
}

// C's record of the first values needs a constant of its own; the contract of `first_values` ties it to that of `train`.
const FIRST: EnteredCoefficients = EnteredCoefficients {
    dt: 130,
    h: 10,
    kr: 57,
    cr: 5,
    nc: 0,
    vc: 150,
    inertia: EnteredInertia {
        ki1: 90,
        ki2: 100,
        ki3: 110,
        i1: 0,
        i2: -21,
    },
};

// Document 002's first values.
pub fn first_values() -> EnteredCoefficients
    ensures { coefficients_of result ≡ first }
{
    FIRST
}

// The train that C's record stands for.
impl From<Entered> for Train {
    ghost from_gives = { λ t r. (r ≡ train_of t) × Meant t r };

    fn from(t: Entered) -> Train {
        Train {
            brake: if t.freight > 0 {
                BrakeType::Freight
            } else {
                BrakeType::Passenger
            },
            electropneumatic: t.electropneumatic > 0,
            weight: t.weight,
            length: Metre(t.length),
            top: Kmh(t.top),
        }
    }
}

// The coefficients of the slope that C's record stands for.
impl From<EnteredInertia> for Inertia {
    ghost from_gives = { λ k r. (r ≡ inertia_of k) × InertiaMeant k r };

    fn from(k: EnteredInertia) -> Inertia {
        Inertia {
            ki1: k.ki1,
            ki2: k.ki2,
            ki3: k.ki3,
            i1: k.i1,
            i2: train_slope::gradient_of(k.i2),
        }
    }
}

// The coefficients of a train as C has it.
impl From<EnteredCoefficients> for Coefficients {
    ghost from_gives = { λ k r. (r ≡ coefficients_of k) × CoefficientsMeant k r };

    fn from(k: EnteredCoefficients) -> Coefficients {
        Coefficients {
            dt: k.dt,
            h: k.h,
            kr: k.kr,
            cr: k.cr,
            nc: Signed::from(train_slope::gradient_of(k.nc)),
            vc: Kmh(k.vc),
            inertia: k.inertia.into(),
        }
    }
}
