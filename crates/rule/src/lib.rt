// How displacements are chosen, as definitions and laws alone: see specs/ and proofs/.
#![tactic(auto)]
