// No code: what an accepted step of a client or a server wrote can be packed; only room can be short.

#![tactic(auto)]
