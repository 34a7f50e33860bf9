// Theorems about the report over a file, proofs/Needless.antt, Counts.antt and Meets.antt, over the definitions of `needless` and of specs/Visits.antt. No function is
// here.
#![tactic(auto)]
