// Theorems about every legal hierarchy, proofs/Laws.antt, about the bounds of a call over any table, there too, and about the cover over any table,
// proofs/Covers.antt, over the definitions of `intervals` and `covers`. No function is here.
#![tactic(auto)]
