//! A few bytes, in place.
ghost use Rattle.memory.specs.Padded.{counted, padded};
ghost use Rattle.std.specs.Prelude.{◌≡◌, ℕ, ◌-◌, ◌≤◌, List, ◌++◌, length, take, drop, replicate};

use std::marker::Model;

/// At most `N` bytes. Those past the count are zero, so that equal lists of bytes are equal values.
// Not the kit's `ArrayVec`: it is not `Copy`, and a card is.
#[derive(Clone, Copy, PartialEq, Eq, Debug)]
pub struct Bytes<const N: usize> {
    array: [u8; N],
    count: usize,
}

impl<const N: usize> Model for Bytes<N> {
    ghost Value = { List ℕ };

    ghost view = { λ s. take s.count s.array };

    ghost invariant = { λ s. (s.count ≤ length s.array) × ((length s.array ≡ N) × (drop s.count s.array ≡ replicate (N - s.count) 0)) };

    ghost inverse = { λ list. record { array = list ++ replicate (N - length list) 0; count = length list } };

    ghost inverse_ok = { λ s h i. record { array = padded N s.count s.array h.0 h.1.1 i; count = counted s.count s.array h.0 i } };
}

impl<const N: usize> Bytes<N> {
    /// The first `count` of the bytes, or all.
    pub fn new(bytes: [u8; N], count: usize) -> Bytes<N>
        ensures { result ≡ take count bytes.entry }
    {
        let count = count.min(N);
        let mut array = bytes;
        let all = &mut array[..];
        all[count..].fill(0);
        Bytes { array, count }
    }

    /// The bytes of the slice, or its first `N`.
    pub fn from_slice(bytes: &[u8]) -> Bytes<N>
        ensures { result ≡ take N bytes.now }
    {
        let count = bytes.len().min(N);
        let mut array = [0; N];
        array[..count].copy_from_slice(&bytes[..count]);
        Bytes { array, count }
    }

    /// The bytes.
    pub fn as_slice(&self) -> &[u8]
        ensures bytes { result.now ≡ self.now }
        ensures fits { length result.now ≤ N }
    {
        let all = &self.array[..];
        &all[0..self.count]
    }
}
