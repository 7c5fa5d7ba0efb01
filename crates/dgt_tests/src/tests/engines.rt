//! The engines, over sources and sinks that fail on demand and count their calls.
//! `tests/program/rows` contains the lines of worked messages and scripts.

mod counting;
mod devices;
mod engine;
mod failures;
mod sweeps;
