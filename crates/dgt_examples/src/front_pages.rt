//! The examples of the crates' front pages.

pub mod finding;
pub mod greeting;
pub mod listing;
pub mod monitoring;
pub mod moving;
pub mod pausing;
pub mod playing;
pub mod printing;
pub mod putting;
pub mod recognising;
pub mod reporting;
pub mod requesting;
pub mod settling;
pub mod storing;
pub mod taking_turns;
#[cfg(test)]
mod tests;
pub mod watching;
