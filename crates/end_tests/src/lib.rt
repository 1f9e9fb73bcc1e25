//! How a worker ends where the other side is over before it: tests alone.
#![tactic(auto)]

#[cfg(test)]
mod waits;
