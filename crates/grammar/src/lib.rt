// Theorems alone: the lines that fitters type, their one reading, where no line can go on, what a line means and how it is answered.
#![tactic(auto)]
