//! Keyed digests: functions of a key and a message.
#![tactic(auto)]

mod bytes;
mod drill;
mod exports;
mod hmac;
mod keyed;
mod sha256;

pub use bytes::xor_into;
pub use drill::DrillDigest;
pub use exports::digest_sha256;
pub use hmac::HmacSha256;
pub use keyed::{KeyedDigest, LONGEST_INPUT};
pub use sha256::sha256_of;
