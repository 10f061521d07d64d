// Fractions and polynomial certificates: definitions in specs/, laws in proofs/, no code.
// Takes: nothing. Gives: fractions, rounding up and certificates, which every crate with a formula rests on.

#![tactic(auto)]
