// Lines of steps from a signal back towards a train's tail. Document 02, Cards 3 and 4.
use super::grid::Place;
use super::sheets;
use super::text::Fields;
use std::io::{self, Write};
use train::Metre;

// Of the sheet's second stretch.
const GRADIENTS: [i16; 2] = [-35, 15];

// The place of the sheet's second signal, the train's length, the signal that is asked for and the head. Tails and that signal are
// on, before and behind a stretch's start; the last two places are beyond the line's end, so that nothing is written.
const WALKS: [(u32, u32, u32, u32); 42] = [
    (700, 0, 0, 0),
    (700, 0, 1, 299),
    (700, 0, 1, 300),
    (700, 0, 1, 700),
    (700, 0, 1, 701),
    (700, 0, 2, 1200),
    (700, 0, 2, 1201),
    (700, 0, 3, 0),
    (700, 0, 3, 5999),
    (700, 0, 4, 0),
    (700, 1, 0, 0),
    (700, 1, 0, 1),
    (700, 1, 1, 300),
    (700, 1, 1, 301),
    (700, 1, 2, 1200),
    (700, 1, 2, 1202),
    (700, 1, 2, 2550),
    (700, 1, 3, 5200),
    (700, 1, 3, 5201),
    (700, 600, 1, 250),
    (700, 600, 1, 700),
    (700, 600, 2, 1799),
    (700, 600, 2, 1800),
    (700, 600, 2, 1801),
    (700, 600, 3, 899),
    (700, 600, 3, 4600),
    (700, 1000, 1, 700),
    (700, 1000, 2, 2200),
    (700, 1000, 3, 1001),
    (700, 1000, 3, 1300),
    (700, 1000, 3, 5999),
    (700, 1000, 4, 4294967295),
    (700, 1001, 1, 701),
    (700, 1001, 4, 0),
    (299, 0, 1, 299),
    (300, 0, 1, 300),
    (301, 1, 1, 301),
    (1199, 1, 1, 1199),
    (1200, 0, 1, 1200),
    (1200, 1000, 1, 1200),
    (6000, 600, 1, 250),
    (6000, 1001, 1, 250),
];

const STEPS: [u32; 10] = [0, 1, 2, 3, 4, 5, 6, 7, 65536, 4294967295];

pub fn back_line(out: &mut impl Write, mut at: Place) -> io::Result<()> {
    let step = at.of(&STEPS);
    let gradient = at.of(&GRADIENTS);
    let (place, length, signal, head) = at.of(&WALKS);
    let (sheet, _) = sheets::eight(300, gradient, place, 15, 6000);
    let back = query_back::step_back(&sheet, signal, Metre(head), Metre(length), step);
    writeln!(
        out,
        "back {place} {length} {gradient} {signal} {head} {step} = {}",
        Fields(back)
    )
}
