// No code: document 01's rehearsed cases, as theorems about the definitions.

#![tactic(auto)]
