// The last of some whole numbers at which a question is answered yes, where the answers turn once from yes to no; found by halving.
// Takes: nothing. Gives: `last_holding`, to `sheet_span`, `ramp_stop` and `query_release`.
#![tactic(auto)]

ghost use Rattle.std.specs.Prelude.{◌≡◌, ℕ, ◌+◌, ◌<◌, ◌≤◌, true, false, ◌⊎◌};

// Neither `from` nor `past` is asked: the last number at which it holds is the one or lies between them, and what lies between is
// halved until they are neighbours. Hence a `while`: nothing is counted.
pub fn last_holding<F: Fn(u32) -> bool>(from: u32, past: u32, holds: F) -> u32
    requires some { from < past }
    requires asked { (k : ℕ) → from < k → k < past → F.pre holds k }
    ensures range { (from ≤ result) × (result < past) }
    ensures yes { (result ≡ from) ⊎ F.post holds result true }
    ensures no { (result + 1 ≡ past) ⊎ F.post holds (result + 1) false }
{
    let mut low = from;
    let mut high = past;
    while high - low > 1 {
        let middle = low + (high - low) / 2;
        if holds(middle) {
            low = middle;
        } else {
            high = middle;
        }
    }
    low
}
