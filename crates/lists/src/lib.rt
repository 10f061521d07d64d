// Lists by their places: definitions in specs/, laws in proofs/, no code.
// Takes: nothing. Gives: rows, tables of records, lists laid over others and rules of constant tables, to rows, sheets, climbs and
// `ceilings_stored`.

#![tactic(auto)]
