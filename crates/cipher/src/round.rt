//! What every round function is.
ghost use Rattle.std.specs.Prelude.{◌≡◌, ℕ, ◌<◌, ◌≤◌, Bool, List, length};
ghost use Rattle.digest.specs.Keyed.{Bytes, written};
ghost use Rattle.cipher.specs.Round.{round_answer};
ghost use Rattle.cipher.specs.Feistel.{with_parameters};

use crate::passphrase::check_passphrase;
use numbers::{Parameters, RoundNumber};
use refusal::{Layer, Refusal};

/// A fixed function of round number, passphrase, identifier, flag, exponent and half, whose result is as long as the half.
pub trait RoundFunction {
    // The function of round number, passphrase, identifier, flag, exponent and half.
    ghost function: { ℕ → List ℕ → ℕ → Bool → ℕ → List ℕ → List ℕ };

    /// Writes the function's result to the front of `out`, and answers how many bytes it has: as many as the half.
    /// A half that has not 8 to 32 bytes is refused first, then the passphrase, then too short a space; a refusal writes nothing.
    fn apply(
        &self,
        round: RoundNumber,
        passphrase: &[u8],
        parameters: Parameters,
        half: &[u8],
        out: &mut [u8],
    ) -> Result<usize, Refusal>
        ensures answer { result ≡ round_answer passphrase.now half.now out.old }
        ensures writes { out.new ≡ written result (with_parameters function passphrase.now parameters round.value half.now) out.old };

    ghost sized: { (number : ℕ) (phrase : List ℕ) (id : ℕ) (flag : Bool) (e : ℕ) (part : List ℕ) → 8 ≤ length part → length part ≤ 32 → length (function number phrase id flag e part) ≡ length part };

    ghost bytes: { (number : ℕ) (phrase : List ℕ) (id : ℕ) (flag : Bool) (e : ℕ) (part : List ℕ) → number < 4 → id < 32768 → e < 16 → Bytes phrase → Bytes part → Bytes (function number phrase id flag e part) };
}

/// The refusals of every round function. What is not refused has as many bytes to write as the half has.
pub fn check_round(passphrase: &[u8], half: &[u8], out: &[u8]) -> Result<usize, Refusal>
    ensures answer { result ≡ round_answer passphrase.now half.now out.now }
{
    let length = half.len();
    if !(8..=32).contains(&length) {
        return Err(Refusal::SecretLength { length });
    }
    check_passphrase(passphrase)?;
    if out.len() < length {
        return Err(Refusal::SpaceTooShort {
            layer: Layer::Cipher,
            wanted: length,
        });
    }
    Ok(length)
}
