// A line's fields as the caller's lists, held to the sheet's rules. Document 01, "Line sheet".
// Takes: the rules of `sheet_line`. Gives: `Lists`, to `sheet_writer`; a record's numbers, to `sheet_bytes`.
#![tactic(auto)]

ghost use Rattle.std.specs.Prelude.{◌≡◌, true, false, MatchResult, ◌+◌, ◌<◌, ◌≤◌, length, get_or, pos};
ghost use Rattle.train.specs.Gradient.{gradient_of, Moderate};
ghost use Rattle.sheet_line.specs.Bytes.{complement};
ghost use Rattle.sheet_line.specs.Records.{Decides, Along};
ghost use Rattle.sheet.specs.Fields.{four_lists, writable};
ghost use Rattle.sheet_lists.specs.Lists.{coded};

use sheet_line::Table;
use sheet_line::rules::{counts_keep, records_keep};
use train::refusal::Refusal;

// Four lists and a line end: the paired lists are as long as each other, and every rule is kept. Four parallel lists: so C lends them.
#[derive(Clone, Copy)]
pub struct Lists<'a> {
    pub starts: &'a [u32],
    pub gradients: &'a [i16],
    pub places: &'a [u32],
    pub overlaps: &'a [u16],
    pub end: u32,
    ghost kept: { writable (four_lists starts.now gradients.now places.now overlaps.now end) ≡ true },
}

impl<'a> Lists<'a> {
    // The lists, if they are kept to the rules.
    pub fn open(
        starts: &'a [u32],
        gradients: &'a [i16],
        places: &'a [u32],
        overlaps: &'a [u16],
        end: u32,
    ) -> Result<Lists<'a>, Refusal>
        ensures { let given = four_lists starts.now gradients.now places.now overlaps.now end in MatchResult result (λ l. four_lists l.starts.now l.gradients.now l.places.now l.overlaps.now l.end ≡ given) (λ r. (r ≡ Refusal.Sheet) × (writable given ≡ false)) }
    {
        if gradients.len() != starts.len()
            || overlaps.len() != places.len()
            || !counts_keep(starts.len(), places.len(), end)
            || starts[0] != 0
            || !stretches_keep(starts, gradients, end)
            || !signals_keep(places, overlaps, end)
        {
            return Err(Refusal::Sheet);
        }
        Ok(Lists {
            starts,
            gradients,
            places,
            overlaps,
            end,
        })
    }
}

// Two's complement of 16 bits.
#[tactic(auto, using(crate::proofs::Complemented::both))]
fn bits(z: i16) -> u16
    ensures { (result ≡ complement z) × (result ≡ coded z) }
{
    z.cast_unsigned()
}

// A stretch: where it starts, and the two bytes of its gradient. This and the next are no methods of `Lists`: its `open` asks for them
// before there is one, and behind it a closure over `lists.stretch(k)` did not prove.
pub fn stretch(starts: &[u32], gradients: &[i16], k: usize) -> (u32, u16)
    requires { (k < length starts.now) × (k < length gradients.now) }
    ensures { let z = get_or gradients.now k (pos 0) in (result.0 ≡ get_or starts.now k 0) × (result.1 ≡ complement z) × (result.1 ≡ coded z) }
{
    (starts[k], bits(gradients[k]))
}

// A signal: where it stands, and its overlap.
pub fn signal(places: &[u32], overlaps: &[u16], k: usize) -> (u32, u16)
    requires { (k < length places.now) × (k < length overlaps.now) }
    ensures { (result.0 ≡ get_or places.now k 0) × (result.1 ≡ get_or overlaps.now k 0) }
{
    (places[k], overlaps[k])
}

// The stretches by themselves.
fn stretches_keep(starts: &[u32], gradients: &[i16], end: u32) -> bool
    requires { length gradients.now ≡ length starts.now }
    ensures { Decides result (Along (λ k. get_or starts.now k 0) (λ k. (get_or starts.now k 0 < end) × Moderate (gradient_of (get_or gradients.now k (pos 0)))) (length starts.now)) }
{
    records_keep(
        Table::Stretches,
        starts.len(),
        end,
        |k| stretch(starts, gradients, k),
    )
}

// The signals by themselves.
fn signals_keep(places: &[u32], overlaps: &[u16], end: u32) -> bool
    requires { length overlaps.now ≡ length places.now }
    ensures { Decides result (Along (λ k. get_or places.now k 0) (λ k. (get_or places.now k 0 < end) × (get_or places.now k 0 + get_or overlaps.now k 0 ≤ end)) (length places.now)) }
{
    records_keep(
        Table::Signals,
        places.len(),
        end,
        |k| signal(places, overlaps, k),
    )
}
