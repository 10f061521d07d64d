// The moment of the stop: the last whole millisecond at which the train has not begun to roll back.
ghost use Rattle.std.specs.Prelude.{◌≡◌, ◌+◌, ◌≤◌, leb};
ghost use Rattle.ramp_motion.specs.Plan.{squares, fast, slow};
ghost use Rattle.ramp_plan.specs.Fair.{Small, Enough};
ghost use Rattle.ramp_stop.specs.Stop.{Turns, longest};

use ramp_motion::Plan;

// What the brake takes off the speed, but for a factor.
fn squares_at(m: Plan, t: u64) -> u64
    requires { Small m × (t ≤ longest) }
    ensures { result ≡ squares m.tm m.tr t }
{
    let acted = t.saturating_sub(m.tm);
    let full = t.saturating_sub(m.tm + m.tr);
    acted * acted - full * full
}

// Whether the speed at t ms is not below 0.
fn forward(m: Plan, t: u64) -> bool
    requires { Small m × (t ≤ longest) }
    ensures { result ≡ leb (slow m t) (fast m t) }
{
    m.up * t + m.brake * squares_at(m, t) <= m.start + m.down * t
}

// The moment of a train that still moves when the brake begins to act in full: from then on it slows down evenly.
fn in_full(m: Plan) -> u64
    requires { Small m × Enough m × (slow m (m.tm + m.tr) ≤ fast m (m.tm + m.tr)) }
    ensures { Turns m result }
{
    let speed = m.start + m.brake * m.tr * (2 * m.tm + m.tr);
    let slowing = 2 * m.brake * m.tr + m.up - m.down;
    speed / slowing
}

// Before that by halving: at 0 the speed is not below 0, and when the brake begins to act in full it is.
pub fn last_forward(m: Plan) -> u64
    requires { Small m × Enough m }
    ensures { Turns m result }
{
    let full = m.tm + m.tr;
    if forward(m, full) {
        return in_full(m);
    }
    let t = halving::last_holding(0, full as u32, |t| forward(m, u64::from(t)));
    u64::from(t)
}
