// The claim on a file cut in two stands in specs/, the theorem in proofs/.
#![tactic(auto)]
