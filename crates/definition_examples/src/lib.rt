//! Worked examples of the definitions in `specs/` of the other crates.
//!
//! The functions do nothing. Each clause of their contracts is a claim that a definition gives a certain result for a
//! certain input. The prover computes the result, and so a wrong definition breaks a claim. The results are from
//! FORMATS.md, from RFCs, or from other programs such as Python's `ipaddress`, and never from `flowlabel`.
#![tactic(auto)]

pub mod addresses;
pub mod certificate_faults;
pub mod certificates;
pub mod checks;
pub mod commands;
pub mod devices;
pub mod files;
pub mod filters;
pub mod groups;
pub mod limits;
pub mod lists;
pub mod map_faults;
pub mod maps;
pub mod messages;
pub mod printed_addresses;
pub mod rows;
pub mod runs;
pub mod samples;
pub mod shortest;
pub mod tables;
pub mod templates;
pub mod times;
