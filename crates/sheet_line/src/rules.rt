// The rules of a line's numbers: of its counts, and of the records of a table.
ghost use Rattle.std.specs.Prelude.{◌≡◌, ℕ, ◌≤◌, ◌<◌};
ghost use Rattle.sheet_line.specs.Records.{Decides, Counts, KeepsItself, Along};

use super::Table;

// The most stretches and signals, and the farthest line end in metres.
const MOST_STRETCHES: usize = 512;

const MOST_SIGNALS: usize = 64;

const FARTHEST_END: u32 = 500000;

// The counts and the line end.
pub fn counts_keep(n: usize, m: usize, end: u32) -> bool
    ensures { Decides result (Counts n m end) }
{
    1 <= n && n <= MOST_STRETCHES && m <= MOST_SIGNALS && 1 <= end && end <= FARTHEST_END
}

// A gradient of -35 to 35, in two's complement; an overlap that ends on the line.
fn half_keeps(table: Table, first: u32, second: u16, end: u32) -> bool
    requires { first < end }
    ensures { Decides result (KeepsItself table end first second) }
{
    match table {
        Table::Stretches => second <= 35 || second >= 65501,
        Table::Signals => second as u32 <= end - first,
    }
}

// One record. `low` is the least number of metres that it may have.
fn record_keeps(table: Table, low: u32, first: u32, second: u16, end: u32) -> bool
    ensures { Decides result ((low ≤ first) × KeepsItself table end first second) }
{
    low <= first && first < end && half_keeps(table, first, second, end)
}

// The n records of a table, wherever they are kept: `nth` gives the metres of one and its two bytes, by its number.
pub fn records_keep<F: Fn(usize) -> (u32, u16)>(table: Table, n: usize, end: u32, nth: F) -> bool
    ghost kept: { ℕ → ℕ × ℕ }
    requires asked { (k : ℕ) → k < n → F.pre nth k }
    requires given { (k : ℕ) (r : _) → k < n → F.post nth k r → (r.0 ≡ (kept k).0) × (r.1 ≡ (kept k).1) }
    ensures { Decides result (Along (λ k. (kept k).0) (λ k. KeepsItself table end (kept k).0 (kept k).1) n) }
{
    let mut low = 0;
    for k in 0..n {
        let (first, second) = nth(k);
        if !record_keeps(table, low, first, second, end) {
            return false;
        }
        low = first + 1;
    }
    true
}
