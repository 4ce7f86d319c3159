// The three demands, stated over the definitions that the contracts cite: see specs/ and proofs/. Nothing here runs.
#![tactic(auto)]
