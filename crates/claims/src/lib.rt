// Each claim of `specification`, proved of every accepted sheet: theorems only, in specs/.
#![tactic(auto)]
