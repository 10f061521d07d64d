// A line's numbers: how they stand in bytes, and their rules, wherever they are kept. Document 01, "Line sheet".
// Takes: `train`, `lists`. Gives: numbers read from bytes, and the rules of the counts and of a table's records, to `sheet`,
// `sheet_fields`, `sheet_lists` and `sheet_bytes`.
#![tactic(auto)]

pub mod bytes;
pub mod rules;

// The two tables of a sheet. Both have records of six bytes: metres in four, then a gradient or an overlap in two.
// It says which rule holds for the two, and that is no second closure: the rule in the contracts, `KeepsItself`, goes by it.
#[derive(Clone, Copy)]
pub enum Table {
    Stretches,
    Signals,
}
