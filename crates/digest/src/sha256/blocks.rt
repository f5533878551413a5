//! Blocks of 64 bytes, and the padding of the last one: sections 5.1.1, 5.2.1 and 6.2.
ghost use Rattle.std.specs.Prelude.{◌≡◌, ◌+◌, ◌*◌, ◌/◌, ◌%◌, ◌^◌, ◌<◌, ◌≤◌, ◌++◌, length, take, drop, replicate};
ghost use Rattle.digest.specs.Sha256.{words_of, bytes_of, padding, hashed};
ghost use Rattle.digest.specs.Parts.{finished};

use super::compression::compress;
use std::array;

/// The words of some bytes.
pub(crate) fn load<const N: usize>(bytes: &[u8]) -> [u32; N]
    requires { length bytes.now ≡ 4 * N }
    ensures { result ≡ words_of N bytes.now }
{
    let (words, _) = bytes.as_chunks::<4>();
    array::from_fn(|t| u32::from_be_bytes(words[t]))
}

/// The hash value after whole blocks.
pub(crate) fn absorb(state: [u32; 8], bytes: &[u8]) -> [u32; 8]
    requires { length bytes.now % 64 ≡ 0 }
    ensures { result ≡ hashed state (length bytes.now / 64) bytes.now }
{
    let (blocks, _) = bytes.as_chunks::<64>();
    let mut value = state;
    for block in blocks {
        // A call's result cannot go straight to an array that the call takes: the borrow checker does not cover that.
        let next = compress::<0>(value, load(block));
        value = next;
    }
    value
}

// The end of a message of `total` bytes, of which `rest` are left, and its padding: made in `space`.
fn pad<'a>(rest: &[u8], total: u64, space: &'a mut [u8; 128]) -> &'a [u8]
    requires left { length rest.now ≡ total % 64 }
    requires clear { space.old ≡ replicate 128 0 }
    ensures whole { length result.now % 64 ≡ 0 }
    ensures holds { result.now ≡ rest.now ++ padding total }
{
    let at = rest.len();
    // The mark first: right after the zeros, the copy would make the compiled library call memset.
    space[at] = 0x80;
    space[..at].copy_from_slice(rest);
    let end = if at < 56 { 64 } else { 128 };
    let bits = total.wrapping_mul(8);
    space[end - 8..end].copy_from_slice(&bits.to_be_bytes());
    &space[..end]
}

/// The words as bytes.
pub(crate) fn store(words: [u32; 8]) -> [u8; 32]
    ensures { result ≡ bytes_of words }
{
    array::from_fn(|i| words[i / 4].to_be_bytes()[i % 4])
}

/// The digest of blocks of `before` bytes, which led to the hash value `state`, and of the message after them.
pub(crate) fn finish(state: [u32; 8], before: u64, message: &[u8]) -> [u8; 32]
    requires whole { before % 64 ≡ 0 }
    requires fits { before + length message.now < 2 ^ 64 }
    ensures { result ≡ finished state before message.now }
{
    let length = message.len();
    let (blocks, rest) = message.split_at(length - length % 64);
    let middle = absorb(state, blocks);
    let mut space = [0; 128];
    let tail = pad(rest, before + length as u64, &mut space);
    store(absorb(middle, tail))
}
