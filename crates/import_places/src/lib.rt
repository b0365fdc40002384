// No code: where an imported cell stands in its import list, among the local numbers and in messages stands in specs/, and the proofs in proofs/.
#![tactic(auto)]
