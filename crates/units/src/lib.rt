// Exact statements on the arithmetic of floats. A finite value is a whole number of its format's
// smallest positive value, of binary32 2^-149: so what a sum, a product, a quotient or a comparison
// gives, its bounds and its rounding error are stated over natural numbers. `specs/` has the
// definitions, of binary32, and `proofs/` the laws, some of any format. There is no code.
#![tactic(auto)]
