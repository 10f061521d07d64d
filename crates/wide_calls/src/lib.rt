// The wide numbers as C calls, for the Rust tests and the benchmark alone. The caller keeps what each `requires` asks.
// Takes: `wide`, `wide_quotient`. Gives: nothing to a crate above.
#![tactic(auto)]

ghost use Rattle.std.specs.Prelude.{◌≡◌, ◌+◌, ◌*◌, ◌<◌, ◌≤◌, leb};
ghost use Rattle.exact.specs.Fraction.{◌over◌, raised};
ghost use Rattle.wide.specs.Value.{value_of, limit};

use wide::Wide;

#[unsafe(no_mangle)]
pub extern "C" fn wide_from_word(x: u64) -> Wide
    ensures { value_of result ≡ x }
{
    Wide::from(x)
}

#[unsafe(no_mangle)]
pub extern "C" fn wide_product(a: u64, b: u64) -> Wide
    ensures { value_of result ≡ a * b }
{
    wide::product(a, b)
}

#[unsafe(no_mangle)]
pub extern "C" fn wide_times(w: Wide, m: u64) -> Wide
    requires { value_of w * m < limit }
    ensures { value_of result ≡ value_of w * m }
{
    wide::times(w, m)
}

#[unsafe(no_mangle)]
pub extern "C" fn wide_sum(a: Wide, b: Wide) -> Wide
    requires { value_of a + value_of b < limit }
    ensures { value_of result ≡ value_of a + value_of b }
{
    wide::sum(a, b)
}

#[unsafe(no_mangle)]
pub extern "C" fn wide_difference(a: Wide, b: Wide) -> Wide
    requires { value_of b ≤ value_of a }
    ensures { value_of result + value_of b ≡ value_of a }
{
    wide::difference(a, b)
}

#[unsafe(no_mangle)]
pub extern "C" fn wide_at_most(a: Wide, b: Wide) -> bool
    ensures { result ≡ leb (value_of a) (value_of b) }
{
    a <= b
}

#[unsafe(no_mangle)]
pub extern "C" fn wide_quotient_up(n: Wide, d: Wide) -> u32
    requires { (0 < value_of d) × (value_of n ≤ 4294967295 * value_of d) }
    ensures { result ≡ raised (value_of n over value_of d) }
{
    wide_quotient::quotient_up(n, d)
}
