// Writing a line sheet from its fields into a lent buffer. Document 01, "Line sheet".
// Takes: `sheet_lists`, `sheet_bytes`. Gives: the operation `write`.
#![tactic(auto)]

ghost use Rattle.sheet.specs.Fields.{four_lists};
ghost use Rattle.sheet_writer.specs.Answer.{Writes};
ghost use Rattle.sheet_writer.specs.Answered.{answered};

use sheet_lists::Lists;
use train::refusal::Refusal;
use train::{Metre, Written};

// The sheet of four lists and a line end, and how many bytes it takes; or a refusal, and the buffer is left as it was.
fn lay(
    starts: &[u32],
    gradients: &[i16],
    places: &[u32],
    overlaps: &[u16],
    end: u32,
    sheet: &mut [u8],
) -> Result<u32, Refusal>
    ensures { Writes (four_lists starts.now gradients.now places.now overlaps.now end) (four_lists starts.now gradients.now places.now overlaps.now end) sheet.old (answered result) sheet.new }
{
    let lists = Lists::open(starts, gradients, places, overlaps, end)?;
    let length = 20 + 6 * starts.len() + 6 * places.len();
    if sheet.len() < length {
        return Err(Refusal::Room);
    }
    sheet_bytes::whole(lists, sheet);
    Ok(length as u32)
}

// The same as the record that C reads. Its zero stands here and is no `From`: a wrong program, refusal_11_with_a_length_throughout, changes
// it here alone.
pub fn write(
    starts: &[u32],
    gradients: &[i16],
    places: &[u32],
    overlaps: &[u16],
    end: Metre,
    sheet: &mut [u8],
) -> Written
    ensures { Writes (four_lists starts.now gradients.now places.now overlaps.now end.0) (four_lists starts.now gradients.now places.now overlaps.now end.0) sheet.old result sheet.new }
{
    match lay(starts, gradients, places, overlaps, end.0, sheet) {
        Ok(length) => Written { refusal: 0, length },
        Err(r) => Written {
            refusal: r.number(),
            length: 0,
        },
    }
}
