//! The drill round: quick to compute by hand, of no use against an attacker.
ghost use Rattle.std.specs.Prelude.{◌≡◌, ◌+◌, ◌%◌, map, sum};
ghost use Rattle.std.proofs.lemmas.List.{length-map};
ghost use Rattle.cipher.specs.Drill.{drill_round};
ghost use Rattle.cipher.specs.DrillBytes.{bytes-map};

use crate::round::{RoundFunction, check_round};
use numbers::{Parameters, RoundNumber};
use refusal::Refusal;

fn sum_of(bytes: &[u8]) -> u8
    ensures { result ≡ sum bytes.now % 256 }
{
    bytes
        .iter()
        .fold(0, |total: u8, byte| total.wrapping_add(*byte))
}

fn add_to_each(bytes: &mut [u8], addend: u8)
    ensures { bytes.new ≡ map (λ byte. (byte + addend) % 256) bytes.old }
{
    for byte in bytes.iter_mut() {
        *byte = byte.wrapping_add(addend);
    }
}

/// Byte k is the half's byte k, the sum of the passphrase's bytes and the round number, modulo 256.
#[derive(Clone, Copy)]
pub struct DrillRound;

impl RoundFunction for DrillRound {
    ghost function = { drill_round };

    ghost sized = { λ number phrase id flag e part h k. length-map part _ };

    ghost bytes = { λ number phrase id flag e part h k l m n. bytes-map (sum phrase) number part };

    fn apply(
        &self,
        round: RoundNumber,
        passphrase: &[u8],
        _parameters: Parameters,
        half: &[u8],
        out: &mut [u8],
    ) -> Result<usize, Refusal> {
        let length = check_round(passphrase, half, out)?;
        let addend = sum_of(passphrase).wrapping_add(round.value);
        out[0..length].copy_from_slice(half);
        add_to_each(&mut out[0..length], addend);
        Ok(length)
    }
}
