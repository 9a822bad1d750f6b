// No code: what a whole script prints, as one definition of bytes, and that it may come in parts.

#![tactic(auto)]
