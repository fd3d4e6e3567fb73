// Factor lists over square-zero extensions, and factoring over a field: mathematics only, in specs/ and proofs/.
#![tactic(auto)]
