// All the short runs of a setting: what is listed and in which order is defined in specs/, and that it is what document 02 asks for is
// proved in proofs/. `listing_print` prints it.

#![tactic(auto)]

// The sizes up to which runs are listed: a setting's servers and clients, and the events of a run.
pub const MAX_SERVERS: u32 = 3;

pub const MAX_CLIENTS: u32 = 2;

pub const MAX_EVENTS: u32 = 6;
