// Lines of approach queries and of steps on a line whose stretches often have equal gradients. Document 02, Card 4.
use super::grid::{self, Place};
use super::sheets;
use super::text::Fields;
use std::io::{self, Write};
use train::{BrakeType, Metre};

// The last is refused.
const LENGTHS: [u32; 5] = [0, 1, 51, 1000, 1001];

const GRADIENTS: [i16; 2] = [-5, 3];

// Up to the last start, and 1 m past it.
const OVERLAPS: [u16; 3] = [0, 250, 251];

// Beside a start, at the signal, and 1 m beyond it.
const HEADS: [u32; 5] = [0, 299, 301, 650, 651];

// Stretches from 0, 300, 600 and 900 m, the first a rise of 3; a signal at 650 m.
fn sheet(i: i16, j: i16, k: i16, overlap: u16) -> [u8; 50] {
    let starts = [0, 300, 600, 900];
    let (sheet, _) = sheets::write(&starts, &[3, i, j, k], &[650], &[overlap], 6000);
    sheet
}

pub fn tie_line(out: &mut impl Write, mut at: Place) -> io::Result<()> {
    let head = at.of(&HEADS);
    let overlap = at.of(&OVERLAPS);
    let k = at.of(&GRADIENTS);
    let j = at.of(&GRADIENTS);
    let i = at.of(&GRADIENTS);
    let length = at.of(&LENGTHS);
    let train = grid::train((BrakeType::Passenger, true), 100, length, 330);
    let sheet = sheet(i, j, k, overlap);
    let first = train::first_values();
    let answer = query::query(first, train, 200, 400, &sheet, 0, Metre(head));
    writeln!(
        out,
        "tie {length} {i} {j} {k} {overlap} {head} = {}",
        Fields(answer)
    )
}

pub fn tie_back_line(out: &mut impl Write, mut at: Place) -> io::Result<()> {
    let step = at.below(4) as u32;
    let head = at.of(&HEADS[..4]);
    let k = at.of(&GRADIENTS);
    let j = at.of(&GRADIENTS);
    let i = at.of(&GRADIENTS);
    let length = at.of(&LENGTHS[..4]);
    let sheet = sheet(i, j, k, 0);
    let back = query_back::step_back(&sheet, 0, Metre(head), Metre(length), step);
    writeln!(
        out,
        "tie_back {length} {i} {j} {k} {head} {step} = {}",
        Fields(back)
    )
}
