// How a train brakes on a gradient: what the speeds do not change of it, in whole numbers. Document 002, sections 7 to 7.4.
// Takes: what delay and slope are (`train_delay`, `train_slope`). Gives: `Course`, and the strength of its braking at a speed, to
// the step crates above and to `query_permitted`.
#![tactic(auto)]

use train::Kmh;

pub mod strength;

// T and tR + tf in 10⁻⁸ s; an uphill and a downhill slope's deceleration, and Kr · dr, in 10⁻⁷ m/s²;
// cr in hundredths, nC (plus - minus) in thousandths, VC. How large they are (`Small`) is no ghost field: laws that the promises name
// (`between`, `sum_is`, `over-is`) are of any course.
#[derive(Clone, Copy)]
pub struct Course {
    pub t8: u64,
    pub r8: u64,
    pub up7: u64,
    pub dn7: u64,
    pub power: u64,
    pub cr: u64,
    pub plus: u64,
    pub minus: u64,
    pub vc: Kmh,
}
