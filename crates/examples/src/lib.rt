// The table of the starred cases (specs/Table.antt), covered by one theorem (proofs/Starred.antt), and what all tables are made of: cases, rows, desks by hand. No function is here.
#![tactic(auto)]
