//! Calls that may run out of memory and that no program makes so far. Each runs once with enough memory: no contract
//! states that this can happen. They have their own crate, since a crate with tests is proved again with them.
#![tactic(auto)]

#[cfg(test)]
mod calls;
