// The fields of an accepted sheet, where they stand in the caller's bytes. Document 01, "Line sheet".
// Takes: `sheet`, `sheet_line`. Gives: the bytes of an accepted sheet with each of its fields, to `sheet_mark`, `sheet_lookup`,
// `sheet_span`, `sheet_walk`, `query_way` and `approach_sheet`.
#![tactic(auto)]

ghost use Rattle.std.specs.Prelude.{◌≡◌, true, false, ◌+◌, ◌*◌, ◌≤◌, ◌<◌, length, IfOk, IfErr};
ghost use Rattle.train.specs.Units.{metres};
ghost use Rattle.sheet_line.specs.Bytes.{u16_at, signed};
ghost use Rattle.sheet.specs.Sheet.{signal_offset, line_of, accepted};
ghost use Rattle.sheet.specs.Fields.{sheet_of, fields_of};

use sheet_line::bytes::{u16_at, u32_at};
use train::Metre;
use train::refusal::Refusal;

// Two's complement of two bytes.
#[tactic(auto, unfolding(sheet_line::specs::Bytes::signed))]
fn per_mille(bits: u16) -> i32
    ensures { result ≡ signed bits }
{
    i32::from(bits.cast_signed())
}

// The caller's bytes, which were found to be a sheet.
#[derive(Clone, Copy)]
pub struct Accepted<'a> {
    pub bytes: &'a [u8],
    ghost accepted: { accepted bytes.now ≡ true },
}

#[tactic(auto, using(crate::proofs::Room::room))]
impl<'a> Accepted<'a> {
    // The sheet, which is, byte for byte, what its fields write; or refusal 7.
    pub fn open(bytes: &'a [u8]) -> Result<Accepted<'a>, Refusal>
        ensures ok { IfOk result (λ a. (a.bytes ≡ bytes.entry) × (sheet_of (fields_of bytes.now) ≡ bytes.now)) }
        ensures err { IfErr result (λ r. (r ≡ Refusal.Sheet) × (accepted bytes.now ≡ false)) }
    {
        if !sheet::check::accepts(bytes) {
            return Err(Refusal::Sheet);
        }
        Ok(Accepted { bytes })
    }

    // How many stretches.
    pub fn stretches(self) -> u32
        ensures { result ≡ (line_of self.entry.bytes.now).stretches }
    {
        u32::from(u16_at(self.bytes, 0))
    }

    // How many signals.
    pub fn signals(self) -> u32
        ensures { result ≡ (line_of self.entry.bytes.now).signals }
    {
        u32::from(u16_at(self.bytes, 2))
    }

    // Where the k-th stretch starts.
    pub fn start(self, k: usize) -> Metre
        requires { k < (line_of self.bytes.now).stretches }
        ensures { result ≡ metres ((line_of self.entry.bytes.now).start k) }
    {
        Metre(u32_at(self.bytes, 20 + 6 * k))
    }

    // The k-th stretch's gradient in per mille.
    pub fn gradient(self, k: usize) -> i32
        requires { k < (line_of self.bytes.now).stretches }
        ensures { result ≡ (line_of self.entry.bytes.now).gradient k }
    {
        per_mille(u16_at(self.bytes, 20 + 6 * k + 4))
    }

    // Where a signal's record begins.
    fn signal_at(self, k: usize) -> usize
        requires { k < (line_of self.bytes.now).signals }
        ensures { (result ≡ signal_offset (u16_at self.entry.bytes.now 0) + 6 * k) × (result + 6 ≤ length self.entry.bytes.now) }
    {
        20 + 6 * (self.stretches() as usize) + 6 * k
    }

    // Where the k-th signal stands.
    pub fn place(self, k: usize) -> Metre
        requires { k < (line_of self.bytes.now).signals }
        ensures { result ≡ metres ((line_of self.entry.bytes.now).place k) }
    {
        Metre(u32_at(self.bytes, self.signal_at(k)))
    }

    // The k-th signal's overlap.
    pub fn overlap(self, k: usize) -> Metre
        requires { k < (line_of self.bytes.now).signals }
        ensures { result ≡ metres ((line_of self.entry.bytes.now).overlap k) }
    {
        Metre(u32::from(u16_at(self.bytes, self.signal_at(k) + 4)))
    }
}
