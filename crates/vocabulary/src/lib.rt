// No code: the words in which every definition of the engine is said stand in specs/, and their laws in proofs/.
#![tactic(auto)]
