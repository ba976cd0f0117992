//! Tests of joining: the clumps of tiles have the full map's numbers.
#![tactic(auto)]

#[cfg(test)]
mod shapes;
#[cfg(test)]
mod tiles;
