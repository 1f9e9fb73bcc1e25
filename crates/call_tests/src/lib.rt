//! Calls of the lower crates, each once with ample memory: no clause says that want of memory is not reported then. They stand
//! in a crate of their own, since a crate that has tests is proved twice.
#![tactic(auto)]

#[cfg(test)]
mod batches;
#[cfg(test)]
mod documents;
#[cfg(test)]
mod generated;
#[cfg(test)]
mod isolated_trees;
#[cfg(test)]
mod lines;
#[cfg(test)]
mod logs;
#[cfg(test)]
mod names;
#[cfg(test)]
mod records;
#[cfg(test)]
mod replies;
#[cfg(test)]
mod roles;
#[cfg(test)]
mod said;
#[cfg(test)]
mod states;
#[cfg(test)]
mod stories;
#[cfg(test)]
mod trees;
