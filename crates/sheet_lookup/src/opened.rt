// An accepted line sheet, opened where its bytes lie: it is consulted in the caller's bytes and never unpacked. The theorems
// `method-meets` and `above-meets` are about this code as it stands, so what an `Accepted` says by its type is asked here by clauses;
// and slice, counts and number are the form that document 01 names.
ghost use Rattle.std.specs.Prelude.{◌≡◌, true};
ghost use Rattle.sheet.specs.Sheet.{accepted};
ghost use Rattle.sheet_lookup.specs.Answer.{stretch_of, signal_of};
ghost use Rattle.sheet_lookup.specs.Counts.{IsCounts};

use super::{Signal, Stretch};
use sheet_fields::Accepted;
use train::refusal::Refusal;

// How many stretches and signals.
#[derive(Clone, Copy)]
pub struct Counts {
    pub stretches: u32,
    pub signals: u32,
}

// The caller's bytes and their counts.
#[derive(Clone, Copy)]
pub struct Sheet<'a> {
    pub bytes: &'a [u8],
    pub counts: Counts,
}

// The counts of an accepted sheet.
pub fn counts_of(s: &[u8]) -> Counts
    requires { accepted s.now ≡ true }
    ensures { IsCounts s.now result }
{
    let sheet = Accepted { bytes: s };
    Counts {
        stretches: sheet.stretches(),
        signals: sheet.signals(),
    }
}

// The stretch of that number, or refusal 8.
#[tactic(auto, unfolding(crate::specs::Answer::stretch_of))]
pub fn nth_stretch(s: &[u8], counts: Counts, number: u32) -> Stretch
    requires { IsCounts s.now counts }
    ensures { result ≡ stretch_of s.now number }
{
    if number >= counts.stretches {
        return Stretch::from(Refusal::Number);
    }
    let sheet = Accepted { bytes: s };
    let k = number as usize;
    Stretch {
        refusal: 0,
        start: sheet.start(k),
        gradient: sheet.gradient(k),
    }
}

// The signal of that number, or refusal 8.
#[tactic(auto, unfolding(crate::specs::Answer::signal_of))]
pub fn nth_signal(s: &[u8], counts: Counts, number: u32) -> Signal
    requires { IsCounts s.now counts }
    ensures { result ≡ signal_of s.now number }
{
    if number >= counts.signals {
        return Signal::from(Refusal::Number);
    }
    let sheet = Accepted { bytes: s };
    let k = number as usize;
    Signal {
        refusal: 0,
        place: sheet.place(k),
        overlap: sheet.overlap(k),
    }
}

// Opens an accepted sheet.
pub fn open<'a>(bytes: &'a [u8]) -> Sheet<'a>
    requires { accepted bytes.now ≡ true }
    ensures { (result.bytes ≡ bytes.entry) × IsCounts bytes.now result.counts }
{
    let counts = counts_of(bytes);
    Sheet { bytes, counts }
}

impl<'a> Sheet<'a> {
    // The stretch of that number, or refusal 8.
    pub fn stretch(self, number: u32) -> Stretch
        requires { IsCounts self.bytes.now self.counts }
        ensures { result ≡ stretch_of self.entry.bytes.now number }
    {
        nth_stretch(self.bytes, self.counts, number)
    }

    // The signal of that number, or refusal 8.
    pub fn signal(self, number: u32) -> Signal
        requires { IsCounts self.bytes.now self.counts }
        ensures { result ≡ signal_of self.entry.bytes.now number }
    {
        nth_signal(self.bytes, self.counts, number)
    }
}

// A stretch of an accepted sheet.
pub fn stretch_of(s: &[u8], number: u32) -> Stretch
    requires { accepted s.now ≡ true }
    ensures { result ≡ stretch_of s.now number }
{
    open(s).stretch(number)
}

// A signal of an accepted sheet, likewise.
pub fn signal_of(s: &[u8], number: u32) -> Signal
    requires { accepted s.now ≡ true }
    ensures { result ≡ signal_of s.now number }
{
    open(s).signal(number)
}
