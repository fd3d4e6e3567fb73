// The laws that the proofs of loops and branches cite: proof tools only, in specs/.
#![tactic(auto)]
