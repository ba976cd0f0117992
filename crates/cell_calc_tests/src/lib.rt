//! Tests expressions with worked texts: tokens, trees, errors, values and windows.
#![tactic(auto)]

#[cfg(test)]
mod evaluation;
#[cfg(test)]
mod faults;
#[cfg(test)]
mod limits;
#[cfg(test)]
mod spellings;
#[cfg(test)]
mod tests;
#[cfg(test)]
mod trees;
#[cfg(test)]
mod windows;
