// The mathematics of splitting modulo p: v^p = v, roots, spans and least dependencies, powers of one irreducible polynomial and their derivatives. No code.
#![tactic(auto)]
