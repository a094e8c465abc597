// Both builders over trees (document 01, "Matching"), the due record, and their theorems. All of it stands in specs/
// and proofs/: the code is crate `builder`.

#![tactic(auto)]
