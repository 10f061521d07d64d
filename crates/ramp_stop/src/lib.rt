// Where and when the train of a plan stops, in whole numbers: the moment, the place.
// Takes: a plan (`ramp_motion`), `halving`, `wide`, `wide_quotient`. Gives: the last millisecond forward and the place then, to `ramp`.
#![tactic(auto)]

pub mod place;
pub mod search;
