// A step of the walk from a signal back towards a train's tail. Document 02, Cards 3 and 4.
// Takes: `query_way`, `sheet_walk`. Gives: the operation `step_back`.
#![tactic(auto)]

ghost use Rattle.query_back.specs.Answer.{as_read, BackAnswers};

use query_way::Located;
use sheet_walk::Back;
use train::Metre;
use train::refusal::Refusal;

// The step, or refusal 2, 7, 8 or 9.
fn walked(s: &[u8], signal: u32, head: Metre, length: Metre, step: u32) -> Result<Back, Refusal>
    ensures { BackAnswers s.now signal head.0 length.0 step (as_read result) s.now }
{
    train::refusal::of_length(length)?;
    let Located { sheet, place, .. } = query_way::signal_ahead(s, signal, head)?;
    let tail = query_way::tail(head, length);
    Ok(sheet_walk::step_back(sheet, tail, place, step))
}

// The step of that number, from 0: a line sheet, a signal's number from 0, the place of the train's head, and the train's length.
pub fn step_back(s: &[u8], signal: u32, head: Metre, length: Metre, step: u32) -> Back
    ensures { BackAnswers s.now signal head.0 length.0 step result s.now }
{
    walked(s, signal, head, length, step).unwrap_or_else(Back::from)
}
