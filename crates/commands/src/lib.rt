//! The kit's command language: what a line asks for, and the line that answers it.
#![tactic(auto)]

pub mod answer;
mod arguments;
pub mod command;
pub mod serving;
pub mod session;
pub mod settings;
pub mod text;
