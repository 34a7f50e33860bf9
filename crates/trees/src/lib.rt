// Theorems about trees, legal hierarchies in which each node but the root has exactly one parent, proofs/Trees.antt, over the definition in specs/Tree.antt. No
// function is here.
#![tactic(auto)]
