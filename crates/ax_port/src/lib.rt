//! The two ports of the lock, through which the page publishes and the client takes. `docs/LOCK.md` says what they promise.
#![tactic(auto)]

mod client;
mod content;
mod page;
mod ports;
#[cfg(test)]
mod tests;

pub use client::{Bell, ClientPort, Taken};
pub use content::Spans;
pub use page::{PagePort, TakenSeen};
pub use ports::{Final, Ports, open_ports};
