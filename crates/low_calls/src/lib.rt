//! Calls of the crates of class files, heaps and abstract states, once each with ample memory: tests alone.
#![tactic(auto)]

#[cfg(test)]
mod codes;
#[cfg(test)]
mod heaps;
#[cfg(test)]
mod pairs;
#[cfg(test)]
mod pools;
#[cfg(test)]
mod states;
