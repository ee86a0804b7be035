// Step 3 of mesh maintenance in 01's own words, and the law that it is the one of crate mesh under 01's rule D_score + D_out ≤ D. No code.
#![tactic(auto)]
