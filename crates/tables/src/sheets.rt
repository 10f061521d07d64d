// Lines of sheets and of approach queries on them.
use super::grid::{self, BRAKES, Place, TIMES, WEIGHTS};
use super::text::Fields;
use query::Answer;
use sheet_mark::Mark;
use std::io::{self, Write};
use train::{Metre, Written};

// What goes round in the sheet's second stretch and second signal, and in its line end; some of it breaks a rule.
const STARTS: [u32; 4] = [0, 1, 300, 1200];

const GRADIENTS: [i16; 5] = [-36, -35, -12, 15, 36];

const PLACES: [u32; 3] = [0, 700, 2549];

const OVERLAPS: [u16; 4] = [0, 15, 300, 5400];

const ENDS: [u32; 2] = [6000, 500000];

const HEADS: [u32; 4] = [0, 250, 700, 2500];

const TOPS: [u32; 2] = [60, 330];

// A sheet of N bytes, and the writer's answer: where it refuses, the sheet is zeros.
pub fn write<const N: usize>(
    starts: &[u32],
    gradients: &[i16],
    places: &[u32],
    overlaps: &[u16],
    end: u32,
) -> ([u8; N], Written) {
    let mut sheet = [0; N];
    let written = sheet_writer::write(starts, gradients, places, overlaps, Metre(end), &mut sheet);
    (sheet, written)
}

// A sheet of eight stretches and four signals.
pub fn eight(start: u32, gradient: i16, place: u32, overlap: u16, end: u32) -> ([u8; 92], Written) {
    let starts = [0, start, 1200, 1201, 2500, 2600, 4000, 5200];
    let gradients = [0, gradient, 20, -20, 3, -21, -9, 7];
    let places = [0, place, 2550, 5999];
    let overlaps = [120, overlap, 800, 1];
    write(&starts, &gradients, &places, &overlaps, end)
}

// What the reads answer: a stretch and a signal of that number, and the move of a mark before that stretch.
fn reads(out: &mut impl Write, sheet: &[u8], number: u32) -> io::Result<()> {
    let stretch = Fields(sheet_lookup::read_stretch(sheet, number));
    let signal = Fields(sheet_lookup::read_signal(sheet, number));
    let moved = Fields(Mark { next: number }.moved(sheet));
    writeln!(out, " ; {stretch} ; {signal} ; {moved}")
}

// Where the writer refuses, the reads find zeros.
pub fn sheet_line(out: &mut impl Write, mut at: Place) -> io::Result<()> {
    let number = at.below(9) as u32;
    let start = at.of(&STARTS);
    let gradient = at.of(&GRADIENTS);
    let place = at.of(&PLACES);
    let overlap = at.of(&OVERLAPS);
    let end = at.of(&ENDS);
    let (sheet, written) = eight(start, gradient, place, overlap, end);
    write!(
        out,
        "sheet {start} {gradient} {place} {overlap} {end} {number} = {}",
        Fields(written)
    )?;
    reads(out, &sheet, number)
}

// The second stretch from 300 m, the second signal at 700 m, the line end at 6,000 m.
pub fn query_line(out: &mut impl Write, mut at: Place) -> io::Result<()> {
    let signal = at.below(5) as u32;
    let head = at.of(&HEADS);
    let gradient = at.of(&GRADIENTS[1..4]);
    let overlap = at.of(&OVERLAPS[..3]);
    let (tm, tr) = at.of(&TIMES[..2]);
    let kind = at.of(&BRAKES);
    let weight = at.of(&WEIGHTS);
    let train = grid::train(kind, weight, 600, at.of(&TOPS));
    let (sheet, _) = eight(300, gradient, 700, overlap, 6000);
    let k = train::first_values();
    let answer = query::query(k, train, tm, tr, &sheet, signal, Metre(head));
    write!(
        out,
        "query {} {tm} {tr} {gradient} {overlap} {signal} {head}",
        Fields(train)
    )?;
    writeln!(out, " = {}", Fields(answer))
}
