// Demand 3: the book of visits, serial execution, and one theorem over any list of steps (proofs/Serializable.antt). No function is here.
#![tactic(auto)]
