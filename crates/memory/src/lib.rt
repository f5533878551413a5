//! Bytes in memory that the caller lends, and in arrays: secrets lie in both, and never on the heap, since freed memory keeps them.
#![tactic(auto)]

mod bytes;
mod space;

pub use bytes::Bytes;
pub use space::append;
