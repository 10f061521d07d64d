// A stretch or a signal of a line sheet, by its number. Document 01, "Line sheet".
// Takes: `sheet_fields`, and for its contract `sheet_mark`. Gives: the operations `read_stretch`, `read_signal`; below them, in
// `opened`, an accepted sheet's stretch and signal, the signal also to `query_way`.
#![tactic(auto)]

ghost use Rattle.std.specs.Prelude.{◌≡◌, pos};
ghost use Rattle.train.specs.Number.{number};
ghost use Rattle.train.specs.Units.{metres};
ghost use Rattle.sheet_lookup.specs.Answer.{StretchAnswers, SignalAnswers};

use sheet_fields::Accepted;
use train::Metre;
use train::refusal::Refusal;

pub mod opened;

// A stretch: its start and its gradient in per mille, positive uphill; or a refusal and zeros. C reads it and the next, and their fields
// differ, so a read of each is a function of its own: one over closures would be no plainer.
#[repr(C)]
#[derive(Clone, Copy)]
pub struct Stretch {
    pub refusal: u32,
    pub start: Metre,
    pub gradient: i32,
}

// A signal: its place and its overlap; or a refusal and zeros.
#[repr(C)]
#[derive(Clone, Copy)]
pub struct Signal {
    pub refusal: u32,
    pub place: Metre,
    pub overlap: Metre,
}

// A refusal, with zeros.
impl From<Refusal> for Stretch {
    ghost from_gives = { λ r answer. answer ≡ record { refusal = number r; start = metres 0; gradient = pos 0 } };

    fn from(r: Refusal) -> Stretch {
        Stretch {
            refusal: r.number(),
            start: Metre(0),
            gradient: 0,
        }
    }
}

impl From<Refusal> for Signal {
    ghost from_gives = { λ r answer. answer ≡ record { refusal = number r; place = metres 0; overlap = metres 0 } };

    fn from(r: Refusal) -> Signal {
        Signal {
            refusal: r.number(),
            place: Metre(0),
            overlap: Metre(0),
        }
    }
}

// The stretch of that number, from 0.
pub fn read_stretch(s: &[u8], number: u32) -> Stretch
    ensures { StretchAnswers s.now number result s.now }
{
    match Accepted::open(s) {
        Ok(sheet) => opened::stretch_of(sheet.bytes, number),
        Err(r) => Stretch::from(r),
    }
}

// The signal of that number, from 0.
pub fn read_signal(s: &[u8], number: u32) -> Signal
    ensures { SignalAnswers s.now number result s.now }
{
    match Accepted::open(s) {
        Ok(sheet) => opened::signal_of(sheet.bytes, number),
        Err(r) => Signal::from(r),
    }
}
