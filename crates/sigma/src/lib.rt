// The library for C: each call of include/sigma.h is one of a crate beside this one, with its promises.

#![tactic(auto)]

mod hosts;
mod packets;
mod records;
mod scripts;
mod settings;
mod simulations;
