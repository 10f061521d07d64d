// The line sheet in the caller's bytes: its layout and its check. Document 01, "Line sheet".
// Takes: `sheet_line`. Gives: the layout, and `check::accepts`, to all that read or write a sheet.
#![tactic(auto)]

pub mod check;
