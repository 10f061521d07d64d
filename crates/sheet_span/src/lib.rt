// Which stretch of a line holds a point. Document 01, "Line sheet".
// Takes: `sheet_fields`, `halving`. Gives: `stretch_at`, to `sheet_walk`; what the least gradient over a span is (specs/Least.antt) and
// its laws, to all that rests on it.
#![tactic(auto)]

ghost use Rattle.std.specs.Prelude.{◌≡◌, ◌<◌};
ghost use Rattle.sheet.specs.Sheet.{line_of};
ghost use Rattle.sheet_span.specs.Least.{stretch_at, Holds};

use halving::last_holding;
use sheet_fields::Accepted;
use train::Metre;

// The number of the stretch that holds a point of the line: the last that starts at or before it. Starts rise, so it is found by halving.
pub fn stretch_at(s: Accepted, point: Metre) -> u32
    requires { point.0 < (line_of s.bytes.now).end }
    ensures { (result ≡ stretch_at (line_of s.entry.bytes.now) point.0) × Holds (line_of s.entry.bytes.now) result point.0 }
{
    last_holding(0, s.stretches(), |k| s.start(k as usize).0 <= point.0)
}
