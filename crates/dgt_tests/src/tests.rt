//! Tests of calls, tables of bytes, conversations and runs of engines.

mod asserting;
mod boards;
mod chess;
mod commanding;
mod decoding;
mod engines;
mod fen;
mod fixtures;
mod followers;
mod hosts;
mod messages;
mod san;
mod scripts;
mod texts;
mod values;
mod worlds;
