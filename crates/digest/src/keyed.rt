//! What every keyed digest is.
ghost use Rattle.std.specs.Prelude.{◌≡◌, ℕ, ◌≤◌, List, ◌++◌, length, take, drop, OnOk};
ghost use Rattle.digest.specs.Keyed.{Bytes, input_answer, space_answer, digest_answer, chain_answer, written, last_link, chain_total, xors};

use crate::bytes::xor_into;
use refusal::{Layer, Refusal};

/// The most bytes that a key or a message may have.
pub const LONGEST_INPUT: usize = 65_536;

// Refuses input that is longer than allowed.
pub(crate) fn check_input(input: &[u8]) -> Result<(), Refusal>
    ensures answer { result ≡ input_answer input.now }
    ensures fits { OnOk result (length input.now ≤ 65536) }
{
    if input.len() > LONGEST_INPUT {
        return Err(Refusal::InputTooLong);
    }
    Ok(())
}

// Refuses a space that is too short for `wanted` bytes.
pub(crate) fn check_space(space: &[u8], wanted: usize) -> Result<(), Refusal>
    ensures answer { result ≡ space_answer space.now wanted }
    ensures fits { OnOk result (wanted ≤ length space.now) }
{
    if space.len() < wanted {
        return Err(Refusal::SpaceTooShort {
            layer: Layer::Digest,
            wanted,
        });
    }
    Ok(())
}

/// A fixed function of a key and a message, whose result has a fixed length.
pub trait KeyedDigest {
    // The function of key and message.
    ghost keyed: { List ℕ → List ℕ → List ℕ };

    // How many bytes its results have.
    ghost size: { ℕ };

    /// How many bytes a digest has.
    fn length(&self) -> usize
        ensures { result ≡ size };

    /// Writes the digest of `message` under `key` to the front of `out`, and answers how many bytes it has.
    /// Longer input than allowed is refused first, then too short a space; a refusal writes nothing.
    fn digest(&self, key: &[u8], message: &[u8], out: &mut [u8]) -> Result<usize, Refusal>
        ensures answer { result ≡ digest_answer size key.now message.now out.old }
        ensures writes { out.new ≡ written result (keyed key.now message.now) out.old };

    /// Takes `count` further digests under `key`, each of the one before it and the first of the digest in front of `link`.
    /// The last is left in front of `link`, and all are combined into the front of `total` by exclusive or.
    /// A key that is too long is refused first, then a space that is too short; a refusal writes nothing.
    fn chain(
        &self,
        key: &[u8],
        count: u32,
        link: &mut [u8],
        total: &mut [u8],
    ) -> Result<usize, Refusal>
        ensures answer { result ≡ chain_answer size key.now link.old total.old }
        ensures last { link.new ≡ written result (last_link (keyed key.now) (take size link.old) count) link.old }
        ensures sum { total.new ≡ written result (chain_total (keyed key.now) (take size link.old) (take size total.old) count) total.old }
    {
        let size = self.length();
        check_input(key)?;
        check_space(link, size)?;
        check_space(total, size)?;
        let mut next = [0; 64];
        for _ in 0..count {
            self.digest(key, &link[..size], &mut next)?;
            link[..size].copy_from_slice(&next[..size]);
            xor_into(&mut total[..size], &next[..size]);
        }
        Ok(size)
    }

    ghost small: { (4 ≤ size) × (size ≤ 64) };

    ghost sized: { (key message : List ℕ) → length (keyed key message) ≡ size };

    ghost bytes: { (key message : List ℕ) → Bytes key → Bytes message → Bytes (keyed key message) };
}
