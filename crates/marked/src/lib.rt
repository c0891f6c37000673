// The twelve marked examples of the rules: one table in specs/, one theorem in proofs/.
#![tactic(auto)]
