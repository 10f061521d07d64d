// A climb over whole speeds, one after the other up to the first that does not fit. Document 01, "Approach".
// Takes: `train`, `lists`. Gives: `climb`, the code, and `climb`, the definition, with the laws that its answer is the highest, to
// `query_release` and `query_permitted`.
#![tactic(auto)]

ghost use Rattle.std.specs.Prelude.{ℕ, ◌+◌, ◌<◌, ◌≤◌, true, false};
ghost use Rattle.train.specs.Units.{kmh};

use train::Kmh;

// From a speed that is not asked for: the last speed before the first that does not fit, or `end` where all up to it fit.
pub fn climb<F: Fn(Kmh) -> bool>(from: Kmh, end: Kmh, fits: F) -> Kmh
    requires order { from.0 ≤ end.0 }
    requires asked { (v : ℕ) → from.0 < v → v ≤ end.0 → F.pre fits (kmh v) }
    ensures range { (from.0 ≤ result.0) × (result.0 ≤ end.0) }
    ensures each { (v : ℕ) → from.0 < v → v ≤ result.0 → F.post fits (kmh v) true }
    ensures next { result.0 < end.0 → F.post fits (kmh (result.0 + 1)) false }
{
    // By a loop that yields the last fitting speed by `break`, the form that document 01 names.
    let mut v = from.0;
    let last = loop {
        if v >= end.0 {
            break end.0;
        }
        if !fits(Kmh(v + 1)) {
            break v;
        }
        v += 1;
    };
    Kmh(last)
}
