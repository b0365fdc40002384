// No code: runs of the calls on the states of all parts, the run theorem and the message theorem stand in specs/, with their laws in proofs/.
#![tactic(auto)]
