// Demand 2 by field number: the Iceberg specification, and where built plans differ. It stands in specs/ and proofs/.

#![tactic(auto)]
