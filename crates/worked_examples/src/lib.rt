// No code: the worked examples of document 01, computed from the definitions, stand in specs/.
#![tactic(auto)]
