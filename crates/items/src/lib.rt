// Items 1 to 9 and term 3 of the definitions of document 01: theorems only, in specs/ and proofs/.
#![tactic(auto)]
