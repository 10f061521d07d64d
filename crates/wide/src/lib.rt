// Natural numbers below 2^192 by value, each contract in plain numbers.
// Takes: nothing. Gives: products, sums, differences and their order, to `wide_quotient`, `step_curve` and `ramp_stop`, and to
// tests by `wide_calls`.
#![tactic(auto, unfolding(crate::specs::Value::value_of))]

ghost use Rattle.std.specs.Prelude.{◌≡◌, ◌+◌, ◌*◌, ◌<◌, ◌≤◌};
ghost use Rattle.wide.specs.Value.{value_of, limit};

mod order;

// Three digits of 64 bits, the least first; by its type each is in range.
#[repr(C)]
#[derive(Clone, Copy)]
pub struct Wide {
    pub low: u64,
    pub mid: u64,
    pub high: u64,
}

impl From<u64> for Wide {
    ghost from_gives = { λ x w. value_of w ≡ x };

    fn from(x: u64) -> Wide {
        Wide {
            low: x,
            mid: 0,
            high: 0,
        }
    }
}

// The product of two words, which always fits.
pub fn product(a: u64, b: u64) -> Wide
    ensures { value_of result ≡ a * b }
{
    let (low, mid) = a.carrying_mul(b, 0);
    Wide { low, mid, high: 0 }
}

#[tactic(auto, unfolding(crate::specs::Value::value_of, crate::specs::Value::limit))]
pub fn times(w: Wide, m: u64) -> Wide
    requires { value_of w * m < limit }
    ensures { value_of result ≡ value_of w * m }
{
    let (low, carry) = w.low.carrying_mul(m, 0);
    let (mid, carry) = w.mid.carrying_mul(m, carry);
    Wide {
        low,
        mid,
        high: w.high * m + carry,
    }
}

#[tactic(auto, unfolding(crate::specs::Value::value_of, crate::specs::Value::limit))]
pub fn sum(a: Wide, b: Wide) -> Wide
    requires { value_of a + value_of b < limit }
    ensures { value_of result ≡ value_of a + value_of b }
{
    let (low, carry) = a.low.carrying_add(b.low, false);
    let (mid, carry) = a.mid.carrying_add(b.mid, carry);
    Wide {
        low,
        mid,
        high: a.high + b.high + u64::from(carry),
    }
}

pub fn difference(a: Wide, b: Wide) -> Wide
    requires { value_of b ≤ value_of a }
    ensures { value_of result + value_of b ≡ value_of a }
{
    let (low, borrow) = a.low.borrowing_sub(b.low, false);
    let (mid, borrow) = a.mid.borrowing_sub(b.mid, borrow);
    Wide {
        low,
        mid,
        high: a.high - b.high - u64::from(borrow),
    }
}
