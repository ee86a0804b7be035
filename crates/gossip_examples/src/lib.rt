// Worked examples of orders 6 and 7: lists of calls and what each answers (specs/Worked.antt), and a house of twelve peers and what the
// sentences say of them (specs/House.antt); the computation is in proofs. No code stands here.
#![tactic(auto)]
