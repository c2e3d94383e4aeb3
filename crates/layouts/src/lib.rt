// Order 8's theorems on the layouts of with-meta extras: definitions, statements and proofs alone, in specs/ and proofs/.
#![tactic(auto)]
