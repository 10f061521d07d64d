// Lines of the ceilings, the step model and the ramp.
use super::grid::{self, BRAKES, Place, TIMES, WEIGHTS};
use super::text::Fields;
use ceilings::Limits;
use std::io::{self, Write};
use step_curve::Curve;
use train::{Kmh, Written};

const LENGTHS: [u32; 5] = [0, 200, 953, 954, 1000];

// On either side of the thresholds of Ki and, for the weakest train, of refusal 10 in both models; and both ends.
const GRADIENTS: [i32; 14] = [
    -35, -29, -28, -22, -21, -20, -19, -18, -17, -1, 0, 1, 10, 35,
];

// A speed and its target; the last two are refused.
const SPEEDS: [(u32, u32); 15] = [
    (0, 0),
    (1, 0),
    (1, 1),
    (2, 1),
    (30, 0),
    (30, 30),
    (90, 0),
    (90, 25),
    (90, 90),
    (150, 60),
    (151, 60),
    (330, 0),
    (330, 330),
    (50, 51),
    (331, 0),
];

// A curve and the number that it is told by.
const CURVES: [(u32, Curve); 4] = [
    (0, Curve::Ebi),
    (1, Curve::Sbi),
    (2, Curve::W),
    (3, Curve::P),
];

const ROW_GRADIENTS: [i32; 3] = [-20, 0, 10];

// Of the ramp; the first and the last are refused.
const CREEPS: [u32; 12] = [0, 1, 2, 5, 10, 20, 36, 50, 75, 99, 100, 101];

// The runs told at every speed, where distance and moment can be seen to rise with it: on the level, down and up. Each has a braked
// weight, a gradient, a dead time and a rise time.
const CLIMBS: [(u32, i32, (u32, u32)); 3] = [
    (100, 0, (200, 400)),
    (45, -28, (2000, 3000)),
    (160, 35, (2000, 1)),
];

// Of either way to the ceilings: every speed, and one past the span.
pub fn limits_line<F: Fn(Kmh) -> Limits>(
    out: &mut impl Write,
    mut at: Place,
    name: &str,
    limits_of: F,
) -> io::Result<()>
    requires { F.IsAlwaysCallable limits_of }
{
    let v = at.below(332) as u32;
    writeln!(out, "{name} {v} = {}", Fields(limits_of(Kmh(v))))
}

pub fn step_line(out: &mut impl Write, mut at: Place) -> io::Result<()> {
    let (v, v0) = at.of(&SPEEDS);
    let i = at.of(&GRADIENTS);
    let length = at.of(&LENGTHS);
    let weight = at.of(&WEIGHTS);
    let train = grid::train(at.of(&BRAKES), weight, length, 160);
    let d = step::step(train::first_values(), train, Kmh(v), Kmh(v0), i);
    writeln!(out, "step {} {v} {v0} {i} = {}", Fields(train), Fields(d))
}

// A row of EBI, SBI, W or P (0 to 3) from 0 or 60 km/h to 330. What it does not need of the lent list stays as it was, 0.
pub fn row_line(out: &mut impl Write, mut at: Place) -> io::Result<()> {
    let (number, curve) = at.of(&CURVES);
    let v0 = at.of(&[0, 60]);
    let i = at.of(&ROW_GRADIENTS);
    let train = grid::train(at.of(&BRAKES), 100, 954, 330);
    let mut row = [0; 331];
    let written = step_row::row(curve, train::first_values(), train, Kmh(v0), i, &mut row);
    write!(out, "row {number} {} {v0} {i}", Fields(train))?;
    row_rest(out, written, &row)
}

pub fn row_rest(out: &mut impl Write, written: Written, row: &[u32]) -> io::Result<()> {
    write!(out, " = {}", Fields(written))?;
    for place in row {
        write!(out, " {place}")?;
    }
    writeln!(out)
}

fn run_line(
    out: &mut impl Write,
    weight: u32,
    i: i32,
    times: (u32, u32),
    v: u32,
) -> io::Result<()> {
    let (tm, tr) = times;
    let stop = ramp::ramp(weight, i, Kmh(v), tm, tr, train::first_values().inertia);
    writeln!(out, "ramp {weight} {i} {v} {tm} {tr} = {}", Fields(stop))
}

pub fn ramp_line(out: &mut impl Write, mut at: Place) -> io::Result<()> {
    let times = at.of(&TIMES);
    let v = at.of(&CREEPS);
    let i = at.of(&GRADIENTS);
    let weight = at.of(&WEIGHTS);
    run_line(out, weight, i, times, v)
}

// Every speed of a run, and one past each end of the span.
pub fn climb_line(out: &mut impl Write, mut at: Place) -> io::Result<()> {
    let v = at.below(102) as u32;
    let (weight, i, times) = at.of(&CLIMBS);
    run_line(out, weight, i, times, v)
}
