// No code: examples beside those of document 01, computed from the definitions, stand in specs/.
#![tactic(auto)]
