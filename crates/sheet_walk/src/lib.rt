// The walk along a line from one of its points back to an earlier one, stretch by stretch, and the least gradient by it with the stretch
// that has it. Document 02, Cards 3 and 4.
// Takes: `sheet_fields`, `sheet_span`, `train_slope`. Gives: the walking mark `Walk`; a step by its number (`step_back`), to `query_back`;
// the least gradient over a span and its stretch (`least`), to `query_way`.
#![tactic(auto)]

ghost use Rattle.std.specs.Prelude.{◌≡◌, ◌+◌, ◌≤◌, ◌<◌, ltb, pos};
ghost use Rattle.train.specs.Number.{number};
ghost use Rattle.sheet.specs.Sheet.{line_of};
ghost use Rattle.sheet_span.specs.Least.{stretch_at, LeastOver};
ghost use Rattle.sheet_walk.specs.Walk.{begun, further};
ghost use Rattle.sheet_walk.specs.Back.{shown, ended, back_on, Steps};

use sheet_fields::Accepted;
use train::refusal::Refusal;
use train::{Gradient, Metre};

// Where the walk stands: at the stretch of that number; its gradient, and the least gradient of the stretches from where the walk
// began to there, with the lowest number that has it. In per mille, signed, as read: a rise and a fall of every stretch make the walk
// dearer. It does not hold the sheet: the definitions of the walk, `begun` and `further`, are over its numbers alone.
#[derive(Clone, Copy)]
pub struct Walk {
    pub stretch: u32,
    pub gradient: i32,
    pub least: i32,
    pub least_stretch: u32,
}

// The governing grade of a span: its least gradient, and the number of the stretch that has it, the lowest among equals.
#[derive(Clone, Copy)]
pub struct Grade {
    pub gradient: Gradient,
    pub stretch: u32,
}

// A step's answer: the stretch's number and gradient, and the least gradient of the steps up to it with the lowest number that has it;
// or `end` 1 and zeros; or a refusal and zeros. C reads it, so the three are numbers in one record.
#[repr(C)]
#[derive(Clone, Copy)]
pub struct Back {
    pub refusal: u32,
    pub end: u32,
    pub stretch: u32,
    pub gradient: i32,
    pub least: i32,
    pub least_stretch: u32,
}

impl Walk {
    // At a stretch, whose gradient is the least so far.
    fn standing_at(s: Accepted, stretch: u32) -> Walk
        requires { stretch < (line_of s.bytes.now).stretches }
        ensures { result ≡ begun (line_of s.entry.bytes.now) stretch }
    {
        let gradient = s.gradient(stretch as usize);
        Walk {
            stretch,
            gradient,
            least: gradient,
            least_stretch: stretch,
        }
    }

    // Step 0: at the stretch that holds a point.
    pub fn begin(s: Accepted, point: Metre) -> Walk
        requires { point.0 < (line_of s.bytes.now).end }
        ensures { result ≡ begun (line_of s.entry.bytes.now) (stretch_at (line_of s.entry.bytes.now) point.0) }
    {
        Walk::standing_at(s, sheet_span::stretch_at(s, point))
    }

    // One step on: at the stretch before.
    pub fn onward(self, s: Accepted) -> Walk
        requires { (0 < self.stretch) × (self.stretch < (line_of s.bytes.now).stretches) }
        ensures { result ≡ further (line_of s.entry.bytes.now) self }
    {
        let before = Walk::standing_at(s, self.stretch - 1);
        if before.gradient <= self.least {
            return before;
        }
        Walk {
            stretch: before.stretch,
            gradient: before.gradient,
            ..self
        }
    }

    // Whether the stretch starts behind a point, so that the walk is still ahead of the stretch that holds it.
    pub fn ahead_of(self, s: Accepted, point: Metre) -> bool
        requires { self.stretch < (line_of s.bytes.now).stretches }
        ensures { result ≡ ltb point.0 ((line_of s.entry.bytes.now).start self.stretch) }
    {
        point.0 < s.start(self.stretch as usize).0
    }

    // As an answer.
    fn shown(self) -> Back
        ensures { result ≡ shown self }
    {
        Back {
            refusal: 0,
            end: 0,
            stretch: self.stretch,
            gradient: self.gradient,
            least: self.least,
            least_stretch: self.least_stretch,
        }
    }
}

// Zeros, beside a refusal or the end.
fn zeros(refusal: u32, end: u32) -> Back
    ensures { result ≡ record { refusal = refusal; end = end; stretch = 0; gradient = pos 0; least = pos 0; least_stretch = 0 } }
{
    Back {
        refusal,
        end,
        stretch: 0,
        gradient: 0,
        least: 0,
        least_stretch: 0,
    }
}

// Past the last step.
fn at_the_end() -> Back
    ensures { result ≡ ended }
{
    zeros(0, 1)
}

// A refusal, with zeros.
impl From<Refusal> for Back {
    ghost from_gives = { λ r answer. answer ≡ record { refusal = number r; end = 0; stretch = 0; gradient = pos 0; least = pos 0; least_stretch = 0 } };

    fn from(r: Refusal) -> Back {
        zeros(r.number(), 0)
    }
}

// The step of that number, from 0, on the walk from the stretch that holds `last` to the one that holds `first`. It costs no more steps
// than its number, and no more than there are.
pub fn step_back(s: Accepted, first: Metre, last: Metre, step: u32) -> Back
    requires { (first.0 ≤ last.0) × (last.0 < (line_of s.bytes.now).end) }
    ensures { (result ≡ back_on (line_of s.entry.bytes.now) first.0 last.0 step) × Steps s.entry.bytes.now first.0 last.0 step result }
{
    let mut walk = Walk::begin(s, last);
    for _ in 0..step {
        if !walk.ahead_of(s, first) {
            return at_the_end();
        }
        walk = walk.onward(s);
    }
    walk.shown()
}

// The least gradient of the stretches that hold a point from `first` to `last`, both included, and its stretch: by all steps of the walk.
// How many there are shows on the way, so the loop is a while.
pub fn least(s: Accepted, first: Metre, last: Metre) -> Grade
    requires { (first.0 ≤ last.0) × (last.0 < (line_of s.bytes.now).end) }
    ensures { LeastOver (line_of s.entry.bytes.now) first.0 (last.0 + 1) result.gradient result.stretch }
{
    let mut walk = Walk::begin(s, last);
    while walk.ahead_of(s, first) {
        walk = walk.onward(s);
    }
    Grade {
        gradient: train_slope::gradient_of(walk.least),
        stretch: walk.least_stretch,
    }
}
