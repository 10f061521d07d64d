// Lines of every operation with coefficients of a train's own. Document 02, Card 5.
use super::grid::{self, Place};
use super::text::Fields;
use super::{models, sheets};
use std::io::{self, Write};
use step_curve::Curve;
use train::{BrakeType, Coefficients, Inertia, Kmh, Metre, Signed, Train};

// On either side of the sets' thresholds; the last is refused.
const GRADIENTS: [i32; 6] = [-21, -10, 0, 10, 11, 36];

// A speed and its target; the last is refused.
const SPEEDS: [(u32, u32); 5] = [(0, 0), (90, 0), (151, 100), (330, 60), (50, 51)];

// Of the ramp; the last is refused.
const CREEPS: [u32; 3] = [1, 60, 101];

const ROW_GRADIENTS: [i32; 2] = [-10, 0];

const QUERY_GRADIENTS: [i16; 4] = [-21, -10, 0, 11];

const OVERLAPS: [u16; 2] = [0, 15];

const HEADS: [u32; 2] = [0, 4600];

// With the first values for the slope.
fn braked(dt: u32, h: u32, kr: u32, cr: u32, nc: i32, vc: u32) -> Coefficients {
    let nc = train_slope::gradient_of(nc);
    Coefficients {
        dt,
        h,
        kr,
        cr,
        nc: Signed::from(nc),
        vc: Kmh(vc),
        ..train::first_values()
    }
}

fn slope(ki1: u32, ki2: u32, ki3: u32, i1: u32, i2: i32) -> Inertia {
    let i2 = train_slope::gradient_of(i2);
    Inertia {
        ki1,
        ki2,
        ki3,
        i1,
        i2,
    }
}

// With the first values for the rest.
fn sloped(ki1: u32, ki2: u32, ki3: u32, i1: u32, i2: i32) -> Coefficients {
    Coefficients {
        inertia: slope(ki1, ki2, ki3, i1, i2),
        ..train::first_values()
    }
}

// Both ends of every span, and one step outside each; 5 to 14 and from 19 on are refused. No array of them: each is made by a call,
// and only the one that is asked for.
fn set(k: usize) -> Coefficients {
    match k {
        0 => train::first_values(),
        1 => braked(0, 0, 150, 0, 10, 0),
        2 => braked(200, 50, 30, 10, -10, 0),
        3 => braked(130, 10, 57, 5, -2, 100),
        4 => braked(130, 10, 150, 10, -10, 150),
        5 => braked(201, 10, 57, 5, 0, 150),
        6 => braked(130, 51, 57, 5, 0, 150),
        7 => braked(130, 10, 29, 5, 0, 150),
        8 => braked(130, 10, 151, 5, 0, 150),
        9 => braked(130, 10, 57, 11, 0, 150),
        10 => braked(130, 10, 57, 5, -11, 150),
        11 => braked(130, 10, 57, 5, 11, 150),
        12 => braked(130, 10, 57, 5, 0, 405),
        13 => braked(130, 10, 57, 5, 0, 152),
        14 => Coefficients {
            inertia: slope(0, 0, 0, 0, 0),
            ..braked(0, 0, 0, 0, 0, 0)
        },
        15 => sloped(80, 80, 80, 0, 0),
        16 => sloped(120, 120, 120, 35, -35),
        17 => sloped(80, 120, 80, 10, -10),
        18 => sloped(120, 80, 120, 0, -10),
        19 => sloped(79, 100, 110, 0, -21),
        20 => sloped(90, 121, 110, 0, -21),
        21 => sloped(90, 100, 79, 0, -21),
        22 => sloped(90, 100, 110, 36, -21),
        23 => sloped(90, 100, 110, 0, -36),
        _ => sloped(90, 100, 110, 0, 1),
    }
}

// A passenger train without its electropneumatic brake.
fn train_to(top: u32) -> Train {
    grid::train((BrakeType::Passenger, false), 100, 600, top)
}

pub fn own_step_line(out: &mut impl Write, mut at: Place) -> io::Result<()> {
    let (v, v0) = at.of(&SPEEDS);
    let i = at.of(&GRADIENTS);
    let own = set(at.below(25));
    let d = step::step(own, train_to(330), Kmh(v), Kmh(v0), i);
    writeln!(out, "own_step {} {v} {v0} {i} = {}", Fields(own), Fields(d))
}

// A row of P from 60 km/h to 160. What it does not need of the lent list stays as it was, 0.
pub fn own_row_line(out: &mut impl Write, mut at: Place) -> io::Result<()> {
    let i = at.of(&ROW_GRADIENTS);
    let own = set(at.below(25));
    let mut row = [0; 161];
    let written = step_row::row(Curve::P, own, train_to(160), Kmh(60), i, &mut row);
    write!(out, "own_row {} 60 {i}", Fields(own))?;
    models::row_rest(out, written, &row)
}

// Of the sets from 14 on, which differ in what the ramp takes of them.
pub fn own_ramp_line(out: &mut impl Write, mut at: Place) -> io::Result<()> {
    let v = at.of(&CREEPS);
    let i = at.of(&GRADIENTS);
    let inertia = set(14 + at.below(11)).inertia;
    let stop = ramp::ramp(100, i, Kmh(v), 200, 400, inertia);
    writeln!(
        out,
        "own_ramp {} {i} {v} = {}",
        Fields(inertia),
        Fields(stop)
    )
}

// One stretch and one signal.
fn sheet(gradient: i16, overlap: u16) -> [u8; 32] {
    let (sheet, _) = sheets::write(&[0], &[gradient], &[5000], &[overlap], 6000);
    sheet
}

pub fn own_query_line(out: &mut impl Write, mut at: Place) -> io::Result<()> {
    let head = at.of(&HEADS);
    let overlap = at.of(&OVERLAPS);
    let gradient = at.of(&QUERY_GRADIENTS);
    let own = set(at.below(25));
    let sheet = sheet(gradient, overlap);
    let answer = query::query(own, train_to(330), 200, 400, &sheet, 0, Metre(head));
    writeln!(
        out,
        "own_query {} {gradient} {overlap} {head} = {}",
        Fields(own),
        Fields(answer)
    )
}
