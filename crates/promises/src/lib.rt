// What is promised of serving as a whole: definitions, statements and proofs alone, in specs/ and proofs/.
#![tactic(auto)]
