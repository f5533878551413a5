//! The drill digest: quick to compute by hand, of no use against an attacker.
ghost use Rattle.std.specs.Prelude.{◌≡◌, ◌+◌, ◌^◌, ◌<◌, ◌++◌, length};
ghost use Rattle.digest.specs.Drill.{drill_digest};
ghost use Rattle.digest.specs.Lanes.{lanes_bytes};
ghost use Rattle.std.proofs.ByRecursion.{All-append};
ghost use Rattle.std.proofs.Common.{rules};

use crate::keyed::{KeyedDigest, check_input, check_space};
use refusal::Refusal;

fn lanes_of(key: &[u8], message: &[u8]) -> [u8; 4]
    requires { length key.now + length message.now < 2 ^ 64 }
    ensures { result ≡ drill_digest key.now message.now }
{
    let mut lanes = [0; 4];
    // Two loops, since over one chain of both slices this takes three times as long.
    for (i, byte) in key.iter().enumerate() {
        lanes[i % 4] ^= *byte;
    }
    for (j, byte) in message.iter().enumerate() {
        lanes[(key.len() + j) % 4] ^= *byte;
    }
    lanes
}

/// Four bytes: byte j is the exclusive or of all bytes at positions equal to j modulo 4 in key then message.
#[derive(Clone, Copy)]
pub struct DrillDigest;

impl KeyedDigest for DrillDigest {
    ghost keyed = { drill_digest };

    ghost size = { 4 };

    ghost small = { Prim.search rules };

    ghost sized = { Prim.search rules };

    ghost bytes = { λ key message h k. lanes_bytes (key ++ message) (All-append _ key message h k) };

    fn length(&self) -> usize {
        4
    }

    fn digest(&self, key: &[u8], message: &[u8], out: &mut [u8]) -> Result<usize, Refusal> {
        check_input(key)?;
        check_input(message)?;
        check_space(out, 4)?;
        out[..4].copy_from_slice(&lanes_of(key, message));
        Ok(4)
    }
}
