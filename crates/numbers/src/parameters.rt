//! What encryption depends on.
use crate::{Exponent, Identifier};

/// What encryption depends on beside the passphrase: the same for all cards of a deal.
#[derive(Clone, Copy, PartialEq, Eq, Debug)]
pub struct Parameters {
    pub identifier: Identifier,
    pub extendable: bool,
    pub exponent: Exponent,
}
