// Run lengths of the definitions of document 02: theorems only, in specs/ and proofs/.
#![tactic(auto)]
