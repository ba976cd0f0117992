//! The tests, one module per subject.

mod clumps;
mod growths;
mod lines;
mod maps;
mod patches_worked;
mod printed;
mod tables;
mod worked;
