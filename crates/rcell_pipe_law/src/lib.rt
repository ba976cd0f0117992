//! Laws of requests to rcell-pipe. This crate contains only proofs.
//!
//! - `law`: a request written for a region, maps, a script and questions is read as exactly these
//! - specs/SentMaps.antt: the caller's region and maps, and the cells that their numbers or texts denote
//! - specs/SentBytes.antt: the bytes that the caller writes, field by field
//! - specs/SentQuestions.antt: the caller's questions about patches, and their bytes
#![tactic(auto)]

pub mod law;
