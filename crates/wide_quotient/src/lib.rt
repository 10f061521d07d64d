// The least quotient not below, counted up from an estimate. Of the estimate it needs only that it is not too high; how near it is
// decides the speed alone.
// Takes: `wide`. Gives: `quotient_up`, by which `step_curve` and `ramp_stop` round, once and upwards.
#![tactic(auto)]

ghost use Rattle.std.specs.Prelude.{◌≡◌, ◌+◌, ◌*◌, ◌/◌, ◌<◌, ◌≤◌, ◌^◌};
ghost use Rattle.exact.specs.Fraction.{◌over◌, raised};
ghost use Rattle.wide.specs.Value.{value_of};

use wide::Wide;

// A number of times that n holds d and 1: the 64 leading bits of n by those of d at the same places.
#[tactic(auto, using(crate::proofs::Division::leading_fits, crate::proofs::Division::estimate_law))]
fn estimate(n: u128, d: u128) -> u64
    ensures { result * (d + 1) ≤ n }
{
    if n < d {
        return 0;
    }
    let shift = 64u32.saturating_sub(n.leading_zeros());
    let a = (n >> shift) as u64;
    let b = (d >> shift) as u64;
    if b < u64::MAX { a / (b + 1) } else { 0 }
}

// Two words as one number.
fn two(high: u64, low: u64) -> u128
    ensures { result ≡ low + 2 ^ 64 * high }
{
    (u128::from(high) << 64) + u128::from(low)
}

// A number of times that n holds d, from their two leading words.
#[tactic(auto, using(crate::proofs::Division::leading))]
fn lower(n: Wide, d: Wide) -> u64
    requires { 0 < value_of d }
    ensures { result * value_of d ≤ value_of n }
{
    if n.high > 0 || d.high > 0 {
        return estimate(two(n.high, n.mid), two(d.high, d.mid));
    }
    if n.mid > 0 || d.mid > 0 {
        return estimate(two(n.mid, n.low), two(d.mid, d.low));
    }
    n.low / d.low
}

// The least whole number not below n / d, which is below 2^32.
#[tactic(auto, using(crate::proofs::Division::below_limit, crate::proofs::Division::least_exact))]
pub fn quotient_up(n: Wide, d: Wide) -> u32
    requires { (0 < value_of d) × (value_of n ≤ 4294967295 * value_of d) }
    ensures { result ≡ raised (value_of n over value_of d) }
{
    let mut q = lower(n, d) as u32;
    let mut left = wide::difference(n, wide::times(d, u64::from(q)));
    // until the rest is small enough: how often is not known before, so no counted loop
    while left > d {
        left = wide::difference(left, d);
        q += 1;
    }
    if left == Wide::from(0) { q } else { q + 1 }
}
