// 01's worked examples: the table of them is specs/Table.antt, and its proof, by computation, proofs/Table.antt. No code.
#![tactic(auto)]
