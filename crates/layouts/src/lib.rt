// Sheets and answers as bytes, their readers and their sizes: theorems only, in specs/.
#![tactic(auto)]
