// Demand 3, demand 2 by field number, and the table of samples, over bytes. All of it stands in specs/ and proofs/.

#![tactic(auto)]
