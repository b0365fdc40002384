// No code: what a part copies, told by walks, stands in specs/ with the theorem, and its laws in proofs/.
#![tactic(auto)]
