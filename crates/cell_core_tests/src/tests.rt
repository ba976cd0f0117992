//! The tests, one module per subject.

mod blocks;
mod devices;
mod fixture;
mod growths;
mod maps;
mod names;
mod numbers;
mod regions;
mod sinks;
mod sources;
mod words;
