// Tables of each refusal's condition at its edge (specs/Edges.antt), each covered by one theorem (proofs/Edges.antt). No function is here.
#![tactic(auto)]
