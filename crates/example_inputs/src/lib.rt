// No code: the inputs of the computed examples stand in specs/.
#![tactic(auto)]
