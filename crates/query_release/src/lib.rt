// The release speed: the last before the first at which the train, braked at the closed signal, gets beyond the overlap.
// Document 01, "Approach".
// Takes: `ramp`, `ramp_motion`, `halving`, `query_climb`. Gives: `speed`, refusal 10 of the ramp among its answers, to `query`.
#![tactic(auto)]

ghost use Rattle.std.specs.Prelude.{◌≡◌, min, ◌≤◌};
ghost use Rattle.train.specs.Refusal.{first_of};
ghost use Rattle.ramp_plan.specs.Fair.{Small, Enough};
ghost use Rattle.ramp.specs.Answer.{at_speed, inputs};
ghost use Rattle.query_climb.specs.Climb.{climb};
ghost use Rattle.query_climb.specs.Sure.{Sure};
ghost use Rattle.query_release.specs.Release.{stops_within, Releases};
ghost use Rattle.query_release.specs.Find.{Each};

use ramp_motion::{Overrun, Plan};
use train::refusal::Refusal;
use train::{Inertia, Kmh, Metre};

// Whether the train stops within the overlap from v.
fn stops_within(m: Plan, v: Kmh, overlap: Metre) -> bool
    requires { Small m × Enough m × (v.0 ≤ 100) }
    ensures { Each m (λ k o. result ≡ stops_within k o overlap v.0) }
{
    let reached = ramp::stop_from(m, v).distance;
    u64::from(reached.0) <= 1000 * u64::from(overlap.0)
}

// A speed up to which the climb need not ask: a slower train stops no further, so where one speed fits, each below it does.
fn surely_stopping(m: Plan, overlap: Metre, last: Kmh) -> Kmh
    requires { Small m × Enough m × (last.0 ≤ 100) }
    ensures { Each m (λ k o. Sure (stops_within k o overlap) 0 result.0) × (result.0 ≤ last.0) }
{
    let surely = halving::last_holding(0, last.0 + 1, |v| stops_within(m, Kmh(v), overlap));
    Kmh(surely)
}

// The climb from 1 km/h to 100 km/h, or the top speed where that is lower. The train stops from each speed up to the sure one, so
// the climb, and with it the ramp, begins there.
fn last_stopping(m: Plan, overlap: Metre, top: Kmh) -> Kmh
    requires { Small m × Enough m }
    ensures { Each m (λ k o. result.0 ≡ climb (stops_within k o overlap) 0 (min 100 top.0)) }
{
    let last = Kmh(top.0.min(100));
    let surely = surely_stopping(m, overlap, last);
    query_climb::climb(surely, last, |v| stops_within(m, v, overlap))
}

// The release speed, or refusal 10: the brake is too weak along the overlap. An overlap of no length gives 0, and the ramp is not
// consulted. Its refusals and its plan but for the speed are the same at every speed.
pub fn speed(k: Inertia, o: Overrun, overlap: Metre, top: Kmh) -> Result<Kmh, Refusal>
    requires { first_of (inputs k (at_speed o 1)) ≡ 0 }
    ensures { Releases k o overlap top result }
{
    if overlap.0 < 1 {
        return Ok(Kmh(0));
    }
    let m = ramp::start(k, Overrun { v: Kmh(1), ..o })?;
    Ok(last_stopping(m, overlap, top))
}
