// The motion of a train past a closed signal: document 01, "Ramp". Definitions and laws.
// Takes: what slope and brake do (`train_slope`). Gives: the motion, and its whole numbers (`Plan`), to the ramp crates above.
#![tactic(auto)]

use train::{Gradient, Kmh};

// A train that passes the signal: its braked weight percentage, the gradient, its speed, the brake's dead time and rise time in
// hundredths of a second.
#[derive(Clone, Copy)]
pub struct Overrun {
    pub weight: u32,
    pub gradient: Gradient,
    pub v: Kmh,
    pub tm: u32,
    pub tr: u32,
}

// Its motion in whole numbers, times in ms: the speed in (10⁻¹⁰ m/s) / (18 tr), an uphill and a downhill slope's deceleration
// in (10⁻⁷ m/s²) / (18 tr), the brake's in (10⁻⁷ m/s²) / 9. How large they are (`Small`) is no ghost field: the definitions and the laws
// make plans beyond it too (`from` any speed, `finer` by any factor).
#[derive(Clone, Copy)]
pub struct Plan {
    pub start: u64,
    pub up: u64,
    pub down: u64,
    pub brake: u64,
    pub tm: u64,
    pub tr: u64,
}
