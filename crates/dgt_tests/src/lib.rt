//! Tests of the libraries, through public calls only. They cover values, messages, decoders,
//! encoders, boards, hosts, followers and worlds, and then lines, scripts and engines over sources
//! and sinks that fail on demand. `tests/program/rows` runs the built program instead.
//!
//! They are a separate crate because a crate with tests is proved twice, with them and without.
#![tactic(auto)]

#[cfg(test)]
mod tests;
