// The reading mark, which moves stretch by stretch along the sheet. Document 01, "Line sheet".
// Takes: `sheet_fields`. Gives: the operation `Mark::moved`, above a move along an accepted sheet (`step`).
#![tactic(auto)]

ghost use Rattle.std.specs.Prelude.{◌≡◌};
ghost use Rattle.train.specs.Number.{number};
ghost use Rattle.sheet.specs.Sheet.{line_of};
ghost use Rattle.sheet_mark.specs.Answer.{fresh, refused, step_of, MoveAnswers};

use sheet_fields::Accepted;
use train::Metre;
use train::refusal::Refusal;

// Where the reading stands: before the stretch of that number. Any number is taken.
#[repr(C)]
#[derive(Clone, Copy)]
pub struct Mark {
    pub next: u32,
}

// A move's answer: the next stretch's fields and the advanced mark; or `end` 1, zeros and the same mark; or a refusal and zeros. C reads
// it, so the three are numbers in one record.
#[repr(C)]
#[derive(Clone, Copy)]
pub struct Move {
    pub refusal: u32,
    pub end: u32,
    pub start: Metre,
    pub gradient: i32,
    pub mark: Mark,
}

// A refusal, with zeros.
impl From<Refusal> for Move {
    ghost from_gives = { λ r answer. answer ≡ refused (number r) };

    fn from(r: Refusal) -> Move {
        Move {
            refusal: r.number(),
            end: 0,
            start: Metre(0),
            gradient: 0,
            mark: Mark::fresh(),
        }
    }
}

impl Mark {
    // Before stretch 0.
    pub fn fresh() -> Mark
        ensures { (result ≡ fresh) × (result.next ≡ 0) }
    {
        Mark { next: 0 }
    }

    // A move along an accepted sheet.
    pub fn step(self, s: Accepted) -> Move
        ensures { result ≡ step_of (line_of s.entry.bytes.now) self }
    {
        if self.next >= s.stretches() {
            return Move {
                refusal: 0,
                end: 1,
                start: Metre(0),
                gradient: 0,
                mark: self,
            };
        }
        let k = self.next as usize;
        Move {
            refusal: 0,
            end: 0,
            start: s.start(k),
            gradient: s.gradient(k),
            mark: Mark {
                next: self.next + 1,
            },
        }
    }

    // A move along any bytes.
    pub fn moved(self, s: &[u8]) -> Move
        ensures { MoveAnswers s.now self result s.now }
    {
        match Accepted::open(s) {
            Ok(sheet) => self.step(sheet),
            Err(r) => Move::from(r),
        }
    }
}
