//! Tests of scripts, of full runs in memory, and of error lines.
#![tactic(auto)]

#[cfg(test)]
mod faults;
#[cfg(test)]
mod flushes;
#[cfg(test)]
mod reports;
#[cfg(test)]
mod runs;
#[cfg(test)]
mod statements;
