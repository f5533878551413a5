//! The cipher of the master secret: passphrases, round functions and the network of four rounds.
#![tactic(auto)]

mod drill;
mod exports;
mod feistel;
mod passphrase;
mod pbkdf2;
mod round;
mod stretching;
mod wiped;

pub use drill::DrillRound;
pub use exports::stretch_for_c;
pub use feistel::{decrypt, encrypt};
pub use passphrase::{LONGEST_PASSPHRASE, check_passphrase};
pub use round::{RoundFunction, check_round};
pub use stretching::Stretching;
pub use wiped::Wiped;
