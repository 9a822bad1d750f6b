// No code: what one step of a client or of a server sends: how many messages, how many bytes, and that every number in them is in range.

#![tactic(auto)]
