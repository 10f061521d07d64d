// Lines of approach queries whose tails are about a stretch's start. Document 02, Card 2.
use super::grid::{self, Place};
use super::sheets;
use super::text::Fields;
use std::io::{self, Write};
use train::{BrakeType, Metre};

// The last is refused.
const LENGTHS: [u32; 5] = [0, 1, 600, 1000, 1001];

const GRADIENTS: [i16; 4] = [-35, -12, 1, 15];

const OVERLAPS: [u16; 2] = [0, 15];

// What stands at a place, and so where the train is.
#[derive(Clone, Copy)]
enum End {
    Head(u32),
    Tail(u32),
}

// Heads near the line's beginning, and tails of which some are about a start of a stretch, and some will be with the head at the
// signal, 250 m on.
const ENDS: [End; 14] = [
    End::Head(0),
    End::Head(250),
    End::Tail(49),
    End::Tail(50),
    End::Tail(51),
    End::Tail(299),
    End::Tail(300),
    End::Tail(301),
    End::Tail(949),
    End::Tail(950),
    End::Tail(951),
    End::Tail(1199),
    End::Tail(1200),
    End::Tail(1201),
];

// A level line of 6,000 m but for one stretch from 300 to 1,200 m, and a signal 250 m ahead of the head.
fn sheet(gradient: i16, overlap: u16, head: u32) -> [u8; 44] {
    let starts = [0, 300, 1200];
    let gradients = [0, gradient, 0];
    let places = [head.saturating_add(250)];
    let (sheet, _) = sheets::write(&starts, &gradients, &places, &[overlap], 6000);
    sheet
}

pub fn tail_line(out: &mut impl Write, mut at: Place) -> io::Result<()> {
    let end = at.of(&ENDS);
    let overlap = at.of(&OVERLAPS);
    let gradient = at.of(&GRADIENTS);
    let length = at.of(&LENGTHS);
    let head = match end {
        End::Head(head) => head,
        End::Tail(tail) => length.saturating_add(tail),
    };
    let train = grid::train((BrakeType::Passenger, true), 100, length, 330);
    let sheet = sheet(gradient, overlap, head);
    let k = train::first_values();
    let answer = query::query(k, train, 200, 400, &sheet, 0, Metre(head));
    writeln!(
        out,
        "tail {length} {gradient} {overlap} {head} = {}",
        Fields(answer)
    )
}
