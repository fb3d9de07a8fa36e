//! The words of the program, read as one of its commands.
//!
//! Promised is which words are which command, and that all other words are none. How many words a command takes is left
//! to `clap`. What a command does is not known here.
#![tactic(auto)]

mod command;
mod number;
mod reading;
mod shape;

pub use command::Command;
pub use reading::read_command;
