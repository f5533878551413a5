//! Reads one card: from the bytes of a typed line to the fields of the card, or the refusal that is due.
#![tactic(auto)]

mod bits;
pub mod card;
pub mod card_parts;
mod card_words;
mod decoding;
mod encoding;
pub mod line;
pub mod promises;
pub mod reading;
pub mod value;
mod words;
pub mod writing;
