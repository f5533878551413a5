//! The value of a card.
ghost use Rattle.std.specs.Prelude.{◌≡◌, ℕ, ◌%◌, ◌<◌, ◌≤◌, length, take, None, MatchOption, slice_index};

use memory::Bytes;

/// The bytes that a card holds of a secret: an even number, 16 to 64. They lie in the value itself, since freed
/// memory would keep them.
#[derive(Clone, Copy)]
pub struct Value {
    bytes: Bytes<64>,
    ghost least: { 16 ≤ length bytes },
    ghost most: { length bytes ≤ 64 },
    ghost even: { length bytes % 2 ≡ 0 },
    ghost small: { (i : ℕ) → slice_index bytes i < 256 },
}

impl Value {
    /// The first `count` of the bytes, if a value may have that many.
    pub fn new(bytes: [u8; 64], count: usize) -> Option<Value>
        ensures { MatchOption result (16 ≤ count → count ≤ 64 → count % 2 ≡ 1) (λ v. (length v.bytes ≡ count) × (v.bytes ≡ take count bytes)) }
    {
        let bytes = Bytes::new(bytes, count);
        let kept = bytes.as_slice();
        if kept.len() < count || count < 16 || count % 2 != 0 {
            return None;
        }
        Some(Value { bytes })
    }

    pub fn bytes(&self) -> &[u8]
        ensures { result.now ≡ self.now.bytes }
    {
        self.bytes.as_slice()
    }
}
