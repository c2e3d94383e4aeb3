// The merge theorem: definitions, statement and proof alone, in specs/ and proofs/.
#![tactic(auto)]
