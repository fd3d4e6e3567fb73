// Commutative rings, residues modulo n and polynomials over them: mathematics only, in specs/ and proofs/.
#![tactic(auto)]
