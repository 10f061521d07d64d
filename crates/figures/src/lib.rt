// Document 01's figures, of the definitions: the starred rows (proofs/Starred.antt), what they leave open, worked out from the
// formulas (Worked, and Own with a train's own coefficients), and the examples of what is turned away (Turned), one theorem over a
// list for each; and the three ramp rows in Card 13's ranges (Ranges).
// Takes: the definitions of `query`, `step_row` and those below. Gives: nothing to a crate above.

#![tactic(auto)]
