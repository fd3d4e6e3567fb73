// How many settings there are: theorems only, in specs/.
#![tactic(auto)]
