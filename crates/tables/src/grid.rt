// Where the inputs of the tables come from.
ghost use Rattle.std.specs.Prelude.{◌<◌, length};

use train::{BrakeType, Kmh, Metre, Train};

// A line's place in its table's grid. Each input takes its turn of the number and leaves the rest to the next, as digits do; the
// first goes round fastest.
#[derive(Drop)]
pub struct Place(pub usize);

impl Place {
    // A number below so many.
    pub fn below(&mut self, many: usize) -> usize
        requires { 0 < many }
        ensures { result < many }
    {
        let turn = self.0 % many;
        self.0 /= many;
        turn
    }

    // One of the values.
    pub fn of<T: Copy>(&mut self, values: &[T]) -> T
        requires { 0 < length values.now }
    {
        values[self.below(values.len())]
    }
}

pub const WEIGHTS: [u32; 3] = [45, 100, 160];

// A dead time and its rise time; the last is refused.
pub const TIMES: [(u32, u32); 6] = [
    (200, 400),
    (2000, 3000),
    (0, 1),
    (0, 3000),
    (2000, 1),
    (2001, 400),
];

// Passenger and freight, each with the electropneumatic brake working and not.
pub const BRAKES: [(BrakeType, bool); 4] = [
    (BrakeType::Passenger, true),
    (BrakeType::Freight, true),
    (BrakeType::Passenger, false),
    (BrakeType::Freight, false),
];

pub fn train(kind: (BrakeType, bool), weight: u32, length: u32, top: u32) -> Train {
    let (brake, electropneumatic) = kind;
    Train {
        brake,
        electropneumatic,
        weight,
        length: Metre(length),
        top: Kmh(top),
    }
}
