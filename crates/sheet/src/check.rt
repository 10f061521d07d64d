// Whether bytes are a sheet: every rule of document 01, in one pass over the lent bytes.
ghost use Rattle.std.specs.Prelude.{◌≡◌, ◌+◌, ◌*◌, ◌≤◌, ◌<◌, length};
ghost use Rattle.sheet_line.specs.Bytes.{u16_at, u32_at};
ghost use Rattle.sheet.specs.Sheet.{line_of, keeps};
ghost use Rattle.sheet.specs.Fields.{Checked};
ghost use Rattle.sheet_line.specs.Records.{Decides, KeepsItself, Along};
ghost use Rattle.sheet.specs.Headed.{Headed};

use sheet_line::Table;
use sheet_line::bytes::{u16_at, u32_at};
use sheet_line::rules::{counts_keep, records_keep};

// A record of the table that begins at `at`: its metres, and its two bytes.
fn record(s: &[u8], at: usize, k: usize) -> (u32, u16)
    requires { at + 6 * k + 6 ≤ length s.now }
    ensures { (result.0 ≡ u32_at s.now (at + 6 * k)) × (result.1 ≡ u16_at s.now (at + 6 * k + 4)) }
{
    let i = at + 6 * k;
    (u32_at(s, i), u16_at(s, i + 4))
}

// The n records of a table that begins at `at`.
fn table_keeps(table: Table, s: &[u8], at: usize, n: usize, end: u32) -> bool
    requires { at + 6 * n ≤ length s.now }
    ensures { Decides result (Along (λ k. u32_at s.now (at + 6 * k)) (λ k. KeepsItself table end (u32_at s.now (at + 6 * k)) (u16_at s.now (at + 6 * k + 4))) n) }
{
    records_keep(table, n, end, |k| record(s, at, k))
}

// The header's offsets and lengths, and the length of the lent slice.
fn header_keeps(s: &[u8]) -> bool
    ensures { Decides result (Headed s.now) }
{
    if s.len() < 20 {
        return false;
    }
    let n = u16_at(s, 0) as usize;
    let m = u16_at(s, 2) as usize;
    let signals = 20 + 6 * n;
    let length = signals + 6 * m;
    u32_at(s, 4) == 20
        && u32_at(s, 8) as usize == signals
        && u32_at(s, 12) as usize == length
        && s.len() == length
}

// The fields of a sheet whose header is right.
fn fields_keep(s: &[u8]) -> bool
    requires { Headed s.now }
    ensures { result ≡ keeps (line_of s.now) }
{
    let n = u16_at(s, 0) as usize;
    let m = u16_at(s, 2) as usize;
    let end = u32_at(s, 16);
    counts_keep(n, m, end)
        && u32_at(s, 20) == 0
        && table_keeps(Table::Stretches, s, 20, n, end)
        && table_keeps(Table::Signals, s, 20 + 6 * n, m, end)
}

// Every rule of the sheet. What is accepted is, byte for byte, what its fields write.
pub fn accepts(s: &[u8]) -> bool
    ensures { Checked s.now result }
{
    header_keeps(s) && fields_keep(s)
}
