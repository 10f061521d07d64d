// The three speed ceilings of a permitted speed, looked up in a table. Document 02, Card 6.
// Takes: the answer of `ceilings` and what is promised of it. Gives: the operation `stored`.
#![tactic(auto)]

ghost use Rattle.std.specs.Prelude.{◌≡◌, ◌+◌, ◌*◌, ◌<◌, length};
ghost use Rattle.train.specs.Units.{kmh};
ghost use Rattle.ceilings.specs.Ceilings.{given};
ghost use Rattle.ceilings.specs.Answer.{CeilingAnswers};
ghost use Rattle.ceilings_stored.specs.Table.{entry_at, Ruled};

// One list, three places a speed, and no list of rows: document 01 names the form, a constant table of 993 numbers, and the
// theorems `ruled`, `entry_of`, `holds_at` are about a list by place.
mod table;

use ceilings::{Ceiling, Limits};
use table::CEILINGS;
use train::Kmh;
use train::refusal::Refusal;

// The ceiling at a place of a table.
fn entry(table: &[u16], place: usize) -> Ceiling
    requires { Ruled table.now × (place < length table.now) }
    ensures { result ≡ entry_at place }
{
    Ceiling(u32::from(table[place]))
}

// The three ceilings that a table has for a speed. The table is lent: a constant is written to the stack wherever it is named.
fn row(table: &[u16], speed: usize) -> Limits
    requires { Ruled table.now × (3 * speed + 2 < length table.now) }
    ensures { result ≡ given (kmh speed) }
{
    let first = 3 * speed;
    Limits {
        refusal: 0,
        w: entry(table, first),
        sbi: entry(table, first + 1),
        ebi: entry(table, first + 2),
    }
}

// The three ceilings of a permitted speed of 0 to 330 km/h.
#[tactic(auto, using(ceilings::proofs::Rules::answers))]
pub fn stored(permitted: Kmh) -> Limits
    ensures { CeilingAnswers permitted result }
{
    if permitted.0 > 330 {
        return Limits::from(Refusal::Speed);
    }
    row(&CEILINGS, permitted.0 as usize)
}
