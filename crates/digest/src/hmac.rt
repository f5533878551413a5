//! HMAC-SHA-256 of FIPS 198-1.
ghost use Rattle.std.specs.Prelude.{◌≡◌, ◌+◌, ◌^◌, ◌<◌, ◌≤◌, length, map, bit_xor};
ghost use Rattle.digest.specs.Sha256.{sha256};
ghost use Rattle.digest.specs.Hmac.{filled, key_block, hmac};
ghost use Rattle.digest.specs.Parts.{finished, key_state};
ghost use Rattle.digest.specs.Padding.{length-sha256, bytes-sha256};
ghost use Rattle.std.proofs.Common.{rules};

mod links;

use crate::keyed::{KeyedDigest, check_input, check_space};
use crate::sha256::{INITIAL, absorb, finish, sha256_of};
use refusal::Refusal;

// The key with zeros after it, up to a block.
fn filled(key: &[u8]) -> [u8; 64]
    requires { length key.now ≤ 64 }
    ensures { result ≡ filled key.now }
{
    let mut block = [0; 64];
    block[..key.len()].copy_from_slice(key);
    block
}

fn key_block(key: &[u8]) -> [u8; 64]
    ensures { result ≡ key_block sha256 key.now }
{
    if key.len() > 64 {
        filled(&sha256_of(key))
    } else {
        filled(key)
    }
}

fn masked(block: [u8; 64], mask: u8) -> [u8; 64]
    ensures { result ≡ map (bit_xor mask) block }
{
    let mut out = block;
    for byte in out.iter_mut() {
        *byte = mask ^ *byte;
    }
    out
}

/// The hash values after the two blocks that a key is made into.
#[derive(Clone, Copy)]
pub(crate) struct KeyStates {
    inner: [u32; 8],
    outer: [u32; 8],
}

impl KeyStates {
    fn of_key(key: &[u8]) -> KeyStates
        ensures inner { result.inner ≡ key_state 0x36 key.now }
        ensures outer { result.outer ≡ key_state 0x5c key.now }
    {
        let block = key_block(key);
        KeyStates {
            inner: absorb(INITIAL, &masked(block, 0x36)),
            outer: absorb(INITIAL, &masked(block, 0x5c)),
        }
    }

    // The digest of a message under the key.
    fn digest(self, message: &[u8]) -> [u8; 32]
        requires { 64 + length message.now < 2 ^ 64 }
        ensures { result ≡ finished self.outer 64 (finished self.inner 64 message.now) }
    {
        finish(self.outer, 64, &finish(self.inner, 64, message))
    }
}

/// HMAC with SHA-256: 32 bytes.
#[derive(Clone, Copy)]
pub struct HmacSha256;

impl KeyedDigest for HmacSha256 {
    ghost keyed = { hmac sha256 };

    ghost size = { 32 };

    ghost small = { Prim.search rules };

    ghost sized = { unfold hmac in λ key message. length-sha256 _ };

    ghost bytes = { unfold hmac in λ key message h k. bytes-sha256 _ };

    fn length(&self) -> usize {
        32
    }

    fn digest(&self, key: &[u8], message: &[u8], out: &mut [u8]) -> Result<usize, Refusal> {
        check_input(key)?;
        check_input(message)?;
        check_space(out, 32)?;
        out[..32].copy_from_slice(&KeyStates::of_key(key).digest(message));
        Ok(32)
    }

    fn chain(
        &self,
        key: &[u8],
        count: u32,
        link: &mut [u8],
        total: &mut [u8],
    ) -> Result<usize, Refusal> {
        check_input(key)?;
        check_space(link, 32)?;
        check_space(total, 32)?;
        if count > 0 {
            KeyStates::of_key(key).extend(count, &mut link[..32], &mut total[..32]);
        }
        Ok(32)
    }
}
