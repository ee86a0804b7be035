// What 01 and 02 say of every score beside its formula: statements in specs/Claims.antt, proofs in proofs/Claims.antt. No code.
#![tactic(auto)]
