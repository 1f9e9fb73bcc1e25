//! Calls of the crates that keep something from edit to edit, each once with ample memory: no clause
//! says that want of memory is not reported then.
#![tactic(auto)]

#[cfg(test)]
mod contexts_and_kids;
#[cfg(test)]
mod edits;
#[cfg(test)]
mod marked;
#[cfg(test)]
mod saids;
