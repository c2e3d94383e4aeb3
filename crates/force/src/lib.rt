// Order 9's theorems on the rule of force: definitions, statements and proofs alone, in specs/ and proofs/.
#![tactic(auto)]
