// 01's worked examples from states that calls reach: the table of them is specs/Reached.antt, and its proof, by computation,
// proofs/Reached.antt. No code.
#![tactic(auto)]
