// The three demands and the cards: definitions and theorems alone, in specs/ and proofs/.
#![tactic(auto)]
