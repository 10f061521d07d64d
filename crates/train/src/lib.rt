// The train, the line's gradient and document 002's coefficients, in the units that every model takes and returns.
// Takes: `exact`. Gives: units, `Train`, `Coefficients`, every `Refusal`, with what is turned away by 1, 2, 3, 5 and 12, to every model
// above; what every contract says of refusals and of lent memory (specs/Judged.antt, Lent.antt).
#![tactic(auto)]

ghost use Rattle.std.specs.Prelude.{◌≡◌};
ghost use Rattle.train.specs.Coefficients.{first};

pub mod refusal;

// A speed in km/h.
#[repr(C)]
#[derive(Clone, Copy)]
pub struct Kmh(pub u32);

// A place or a length in metres.
#[repr(C)]
#[derive(Clone, Copy)]
pub struct Metre(pub u32);

// A distance in millimetres.
#[repr(C)]
#[derive(Clone, Copy)]
pub struct Millimetre(pub u32);

// What a call that writes answers: how many places of the lent list it has written, or a refusal and 0. C reads it, so the refusal is a
// number here and no `Result`.
#[repr(C)]
#[derive(Clone, Copy)]
pub struct Written {
    pub refusal: u32,
    pub length: u32,
}

#[derive(Clone, Copy)]
pub enum BrakeType {
    Passenger,
    Freight,
}

// weight is the braked weight percentage BW, top the top speed of the service regime.
#[derive(Clone, Copy)]
pub struct Train {
    pub brake: BrakeType,
    pub electropneumatic: bool,
    pub weight: u32,
    pub length: Metre,
    pub top: Kmh,
}

// A gradient in per mille, uphill or downhill; one of the two is 0.
#[derive(Clone, Copy)]
pub struct Gradient {
    pub rise: u32,
    pub fall: u32,
}

// A number of either sign: plus - minus. No `Gradient`, though of its shape: contracts read better by rise and fall there.
#[derive(Clone, Copy)]
pub struct Signed {
    pub plus: u32,
    pub minus: u32,
}

// A rise and a fall are the two parts of any signed number.
impl From<Gradient> for Signed {
    ghost from_gives = { λ g s. (s.plus ≡ g.rise) × (s.minus ≡ g.fall) };

    fn from(g: Gradient) -> Signed {
        Signed {
            plus: g.rise,
            minus: g.fall,
        }
    }
}

// The coefficients of the slope by document 002's names, which hold for the ramp too: i1 in per mille uphill, i2 a gradient, the
// others in hundredths.
#[derive(Clone, Copy)]
pub struct Inertia {
    pub ki1: u32,
    pub ki2: u32,
    pub ki3: u32,
    pub i1: u32,
    pub i2: Gradient,
}

// Document 002's coefficients by its names: h in tenths of a second, nc in thousandths per km/h, the others in hundredths. They stand
// beside a train and not in it: definitions and contracts (`StepAnswers`, `QueryAnswers`) take any coefficients with any train.
#[derive(Clone, Copy)]
pub struct Coefficients {
    pub dt: u32,
    pub h: u32,
    pub kr: u32,
    pub cr: u32,
    pub nc: Signed,
    pub vc: Kmh,
    pub inertia: Inertia,
}

const FIRST: Coefficients = Coefficients {
    dt: 130,
    h: 10,
    kr: 57,
    cr: 5,
    nc: Signed { plus: 0, minus: 0 },
    vc: Kmh(150),
    inertia: Inertia {
        ki1: 90,
        ki2: 100,
        ki3: 110,
        i1: 0,
        i2: Gradient { rise: 0, fall: 21 },
    },
};

// Document 002's first values.
pub fn first_values() -> Coefficients
    ensures { result ≡ first }
{
    FIRST
}
