// Tables of cases beyond the starred ones and the edges (specs), each covered by one theorem (proofs): hierarchies, files, visits, steps, names. No function is here.
#![tactic(auto)]
