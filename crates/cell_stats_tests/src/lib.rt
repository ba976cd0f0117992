//! Tests the rules of r.reclass with each form of a line, and one example of each public call of clumps, patches,
//! tables and their printed text. Worked results are in cases/, and the model tries random maps.
#![tactic(auto)]

#[cfg(test)]
mod tests;
