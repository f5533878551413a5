//! Secrets shared out over curves: the values of a curve at some places, and the secret that they fix.
#![tactic(auto)]

mod checks;
mod curve;
mod dealing;
mod share;
mod sound;
mod values;

pub use curve::{NoSecret, curve_secret};
pub use dealing::{NotDealt, curve_value};
pub use share::Share;
pub use sound::SharesFault;
pub use values::value_at;
