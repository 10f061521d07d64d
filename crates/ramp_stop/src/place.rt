// The place at a moment, in whole millimetres.
ghost use Rattle.std.specs.Prelude.{◌≡◌, ◌+◌, ◌*◌, ◌≤◌, ◌<◌};
ghost use Rattle.wide.specs.Value.{value_of};
ghost use Rattle.ramp_motion.specs.Plan.{cubes, gain, loss};
ghost use Rattle.ramp_plan.specs.Fair.{Small};
ghost use Rattle.ramp_stop.specs.Stop.{longest, word_long, place_up};

use ramp_motion::Plan;
use wide::Wide;

// 2¹⁹ ms, some 9 minutes: few stops are later.
const WORD_LONG: u64 = 524288;

// What the brake takes off the place, but for a factor; `squares_at` with cubes. They stay two: a power as a parameter would make a
// loop of what is plain to see, and the contracts have a definition for each (`squares`, `cubes`).
fn cubes_at(m: Plan, t: u64) -> u64
    requires { Small m × (t ≤ longest) }
    ensures { result ≡ cubes m.tm m.tr t }
{
    let acted = t.saturating_sub(m.tm);
    let full = t.saturating_sub(m.tm + m.tr);
    acted * acted * acted - full * full * full
}

// The place is gain - loss: what the speed and a downhill slope give, and what an uphill slope and the brake take.
fn gain_at(m: Plan, t: u64) -> Wide
    requires { Small m × (t ≤ longest) }
    ensures { value_of result ≡ gain m t }
{
    wide::product(3 * t, 2 * m.start + m.down * t)
}

fn loss_at(m: Plan, t: u64) -> Wide
    requires { Small m × (t ≤ longest) }
    ensures { value_of result ≡ loss m t }
{
    let slope = wide::product(3 * t, m.up * t);
    let brake = wide::product(2 * m.brake, cubes_at(m, t));
    wide::sum(slope, brake)
}

// By numbers of any length.
fn by_wide(m: Plan, t: u64) -> u32
    requires { Small m × (t ≤ longest) × (loss m t ≤ gain m t) }
    ensures { (result ≡ place_up m t) × (result ≤ 300000000) }
{
    // a millimetre, as gain and loss count
    let unit = 1080000000000 * m.tr;
    let place = wide::difference(gain_at(m, t), loss_at(m, t));
    wide_quotient::quotient_up(place, Wide::from(unit))
}

// p x / tr, lowered. The product may be longer than a word: what x leaves over tr is taken by itself.
fn product_over(p: u64, x: u64, tr: u64) -> u64
    requires { (p ≤ 32130000) × (0 < tr) × (tr ≤ 30000) × (p * x ≤ 13000000000000000000 * tr) }
    ensures { (result * tr ≤ p * x) × (p * x < (result + 1) * tr) }
{
    p * (x / tr) + p * (x % tr) / tr
}

// The mean speed up to t that V and the slope alone make, in 10⁻¹⁰ m/s / 18.
fn mean_speed(m: Plan, t: u64) -> u64
    requires { Small m × (t ≤ longest) × (loss m t ≤ gain m t) }
    ensures { result * (2 * m.tr) + m.up * t ≡ 2 * m.start + m.down * t }
{
    (2 * m.start + m.down * t - m.up * t) / (2 * m.tr)
}

// By one word: a millimetre is 18·10¹⁰. The brake's part may be lowered to a whole number, since the place is raised.
fn by_word(m: Plan, t: u64) -> u32
    requires { Small m × (t ≤ word_long) × (loss m t ≤ gain m t) }
    ensures { (result ≡ place_up m t) × (result ≤ 300000000) }
{
    let unbraked = mean_speed(m, t) * t;
    let braked = product_over(m.brake / 3, cubes_at(m, t), m.tr);
    (unbraked - braked).div_ceil(180000000000) as u32
}

// The least whole millimetre not below the place at t ms.
pub fn place_up(m: Plan, t: u64) -> u32
    requires { Small m × (t ≤ longest) × (loss m t ≤ gain m t) }
    ensures { (result ≡ place_up m t) × (result ≤ 300000000) }
{
    if t <= WORD_LONG {
        by_word(m, t)
    } else {
        by_wide(m, t)
    }
}
