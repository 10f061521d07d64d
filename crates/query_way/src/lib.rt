// What a sheet says of the way to a signal and past it. Document 01, "Approach"; document 02, Cards 2, 3 and 4.
// Takes: `sheet_fields`, `sheet_lookup`, `sheet_walk`. Gives: `find`, refusals 7, 8, 9 or the way and the stretches that govern it, to
// `query`; the signal and the tail alone (`signal_ahead`, `tail`), to `query_back`.
#![tactic(auto)]

ghost use Rattle.std.specs.Prelude.{◌≡◌, ◌+◌, ◌≤◌, ◌<◌};
ghost use Rattle.sheet.specs.Sheet.{line_of};
ghost use Rattle.query_way.specs.Way.{tail_of};
ghost use Rattle.query_way.specs.Find.{Ahead, Finds, GradeOver, Past};

use sheet_fields::Accepted;
use sheet_lookup::opened;
use sheet_walk::Grade;
use train::refusal::Refusal;
use train::{Gradient, Metre};

// How far the signal is from the head, and the least gradient from the tail to the signal; the overlap, and the least gradient under
// the train as it passes the signal.
#[derive(Clone, Copy)]
pub struct Way {
    pub distance: Metre,
    pub ahead: Gradient,
    pub overlap: Metre,
    pub past: Gradient,
}

// The numbers of the stretches that govern the two gradients; the overlap's is 65,535 where the overlap has no length. They stand beside
// the way: sheets that agree on a way may number its stretches differently.
#[derive(Clone, Copy)]
pub struct Governing {
    pub overlap: u32,
    pub ahead: u32,
}

// A signal on its sheet: where it stands, and its overlap.
#[derive(Clone, Copy)]
pub struct Located<'a> {
    pub sheet: Accepted<'a>,
    pub place: Metre,
    pub overlap: Metre,
}

// The signal of that number, from 0, where the head is not beyond it; or refusal 7, 8 or 9. It is read as a read by number reads it, so
// that 7 and 8 are decided once; C's record says 8 by its number.
pub fn signal_ahead<'a>(s: &'a [u8], signal: u32, head: Metre) -> Result<Located<'a>, Refusal>
    ensures { Ahead s.now signal head.0 result }
{
    let sheet = Accepted::open(s)?;
    let read = opened::signal_of(sheet.bytes, signal);
    if read.refusal > 0 {
        return Err(Refusal::Number);
    }
    if head.0 > read.place.0 {
        return Err(Refusal::Head);
    }
    Ok(Located {
        sheet,
        place: read.place,
        overlap: read.overlap,
    })
}

// Where the tail is of a train with its head at a place: its length behind that, or at the line's beginning.
pub fn tail(place: Metre, length: Metre) -> Metre
    ensures { result.0 ≡ tail_of place.0 length.0 }
{
    Metre(place.0.saturating_sub(length.0))
}

// The governing grade from the tail to the signal, both included.
fn ahead(s: Accepted, head: Metre, length: Metre, place: Metre) -> Grade
    requires { (head.0 ≤ place.0) × (place.0 < (line_of s.bytes.now).end) }
    ensures { GradeOver (line_of s.entry.bytes.now) (tail_of head.0 length.0) (place.0 + 1) result }
{
    sheet_walk::least(s, tail(head, length), place)
}

// The governing grade from the tail of a train with its head at the signal up to but not including the overlap's end. That of no length
// is level, under Card 4's number for no stretch: the definitions of the way have it so, and it is no Option.
fn past(s: Accepted, place: Metre, length: Metre, overlap: Metre) -> Grade
    requires { place.0 + overlap.0 ≤ (line_of s.bytes.now).end }
    ensures { Past (line_of s.entry.bytes.now) place.0 overlap.0 length.0 result }
{
    if overlap.0 < 1 {
        return Grade {
            gradient: Gradient { rise: 0, fall: 0 },
            stretch: 65535,
        };
    }
    let last = Metre(place.0 + overlap.0 - 1);
    sheet_walk::least(s, tail(place, length), last)
}

// The way of a train of a length from its head to the signal of that number, from 0, and past it, and the stretches that govern it.
pub fn find(s: &[u8], signal: u32, head: Metre, length: Metre) -> Result<(Way, Governing), Refusal>
    ensures { Finds s.now signal head.0 length.0 result }
{
    let Located {
        sheet,
        place,
        overlap,
    } = signal_ahead(s, signal, head)?;
    let grade_ahead = ahead(sheet, head, length, place);
    let grade_past = past(sheet, place, length, overlap);
    let way = Way {
        distance: Metre(place.0 - head.0),
        ahead: grade_ahead.gradient,
        overlap,
        past: grade_past.gradient,
    };
    let governing = Governing {
        overlap: grade_past.stretch,
        ahead: grade_ahead.stretch,
    };
    Ok((way, governing))
}
