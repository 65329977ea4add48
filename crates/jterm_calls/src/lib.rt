//! The public call `jterm` over ports in memory: tests alone.
#![tactic(auto)]

#[cfg(test)]
mod calls;
#[cfg(test)]
mod certs;
#[cfg(test)]
mod checking;
#[cfg(test)]
mod proving;
#[cfg(test)]
mod rows;
#[cfg(test)]
mod ruling;
