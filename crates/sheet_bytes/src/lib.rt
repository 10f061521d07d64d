// A sheet's numbers, records and header, laid into a lent buffer; what lies before and behind stays. Document 01, "Line sheet".
// Takes: lists that keep the sheet's rules (`sheet_lists`). Gives: `whole`, the bytes of a sheet, to `sheet_writer`.
#![tactic(auto)]

ghost use Rattle.std.specs.Prelude.{◌≡◌, ℕ, ◌++◌, ◌+◌, ◌*◌, ◌≤◌, ◌<◌, length};
ghost use Rattle.lists.specs.Put.{put};
ghost use Rattle.sheet_line.specs.Bytes.{bytes2, bytes4};
ghost use Rattle.sheet_line.specs.Line.{most_stretches, most_signals};
ghost use Rattle.sheet.specs.Sheet.{sheet_length, header, records};
ghost use Rattle.sheet.specs.Fields.{four_lists, sheet_of};

use sheet_lists::{Lists, signal, stretch};

// Bytes from place i on.
fn lay(out: &mut [u8], i: usize, bytes: &[u8])
    requires { i + length bytes.now ≤ length out.old }
    ensures { out.new ≡ put i bytes.now out.old }
{
    out[i..i + bytes.len()].copy_from_slice(bytes);
}

// A number of two bytes, least significant first. This and the next are two: a definition and a law hold each width (`bytes2`,
// `bytes4`), and no trait has `to_le_bytes`.
#[tactic(auto, using(crate::proofs::LowFirst::low_two))]
fn two(out: &mut [u8], i: usize, x: u16)
    requires { i + 2 ≤ length out.old }
    ensures { out.new ≡ put i (bytes2 x) out.old }
{
    lay(out, i, &x.to_le_bytes());
}

// A number of four bytes.
#[tactic(auto, using(crate::proofs::LowFirst::low_four))]
fn four(out: &mut [u8], i: usize, x: u32)
    requires { i + 4 ≤ length out.old }
    ensures { out.new ≡ put i (bytes4 x) out.old }
{
    lay(out, i, &x.to_le_bytes());
}

// A record: four bytes, then two.
fn entry(out: &mut [u8], i: usize, first: u32, second: u16)
    requires { i + 6 ≤ length out.old }
    ensures { out.new ≡ put i (bytes4 first ++ bytes2 second) out.old }
{
    four(out, i, first);
    two(out, i + 4, second);
}

// The n records of one table, from `at` on: `nth` gives the metres of one and its two bytes, by its number.
fn records<F: Fn(usize) -> (u32, u16)>(n: usize, nth: F, at: usize, out: &mut [u8])
    ghost kept: { ℕ → ℕ × ℕ }
    requires room { at + 6 * n ≤ length out.old }
    requires asked { (k : ℕ) → k < n → F.pre nth k }
    requires given { (k : ℕ) (r : _) → k < n → F.post nth k r → (r.0 ≡ (kept k).0) × (r.1 ≡ (kept k).1) }
    ensures { out.new ≡ put at (records (λ k. (kept k).0) (λ k. (kept k).1) n) out.old }
{
    for k in 0..n {
        let (first, second) = nth(k);
        entry(out, at + 6 * k, first, second);
    }
}

// The header's six numbers.
fn header(n: usize, m: usize, end: u32, out: &mut [u8])
    requires { (n ≤ most_stretches) × (m ≤ most_signals) × (20 ≤ length out.old) }
    ensures { out.new ≡ put 0 (header n m end) out.old }
{
    let signals = 20 + 6 * (n as u32);
    two(out, 0, n as u16);
    two(out, 2, m as u16);
    four(out, 4, 20);
    four(out, 8, signals);
    four(out, 12, signals + 6 * (m as u32));
    four(out, 16, end);
}

// The whole sheet: the header, then both tables.
pub fn whole(lists: Lists, out: &mut [u8])
    requires { sheet_length (length lists.starts.now) (length lists.places.now) ≤ length out.old }
    ensures { out.new ≡ put 0 (sheet_of (four_lists lists.entry.starts.now lists.entry.gradients.now lists.entry.places.now lists.entry.overlaps.now lists.entry.end)) out.old }
{
    let n = lists.starts.len();
    let m = lists.places.len();
    header(n, m, lists.end, out);
    records(n, |k| stretch(lists.starts, lists.gradients, k), 20, out);
    records(
        m,
        |k| signal(lists.places, lists.overlaps, k),
        20 + 6 * n,
        out,
    );
}
