//! Stretching: PBKDF2 of RFC 8018 over any keyed digest, as a round function.
ghost use Rattle.std.specs.Prelude.{◌≡◌, ◌+◌, ◌<◌, ◌≤◌, ◌∷◌, length, take, replicate};
ghost use Rattle.cipher.specs.Feistel.{with_parameters};
ghost use Rattle.cipher.specs.Stretching.{password_of, salt_prefix, salt_of, iterations, stretched};
ghost use Rattle.std.proofs.Common.{arith};
ghost use Rattle.std.proofs.lemmas.Nat.{pow_pos};
ghost use Rattle.cipher.specs.Blocks.{length-pbkdf2};
ghost use Rattle.cipher.specs.ByteLists.{bytes-salt, bytes-pbkdf2};

use crate::pbkdf2::Pbkdf2;
use crate::round::{RoundFunction, check_round};
use crate::wiped::Wiped;
use digest::KeyedDigest;
use memory::append;
use numbers::{Exponent, Parameters, RoundNumber};
use refusal::Refusal;

// Writes the password to the front of the space, and answers its length.
fn write_password(round: RoundNumber, passphrase: &[u8], space: &mut [u8]) -> usize
    requires { 1 + length passphrase.now ≤ length space.old }
    ensures end { result ≡ 1 + length passphrase.now }
    ensures holds { take result space.new ≡ password_of round.value passphrase.now }
{
    let end = append(space, 0, &[round.value]).unwrap();
    append(space, end, passphrase).unwrap()
}

// Writes what goes before the half in the salt to the front of the space, and answers its length.
fn write_prefix(parameters: Parameters, space: &mut [u8]) -> usize
    requires { 8 ≤ length space.old }
    ensures end { result ≤ 8 }
    ensures holds { take result space.new ≡ salt_prefix parameters.identifier.value parameters.extendable }
{
    if parameters.extendable {
        return 0;
    }
    let end = append(space, 0, b"shamir").unwrap();
    append(space, end, &parameters.identifier.value.to_be_bytes()).unwrap()
}

// Writes the salt to the front of the space, and answers its length.
fn write_salt(parameters: Parameters, half: &[u8], space: &mut [u8]) -> usize
    requires { 8 + length half.now ≤ length space.old }
    ensures end { result ≤ 8 + length half.now }
    ensures holds { take result space.new ≡ salt_of parameters.identifier.value parameters.extendable half.now }
{
    let end = write_prefix(parameters, space);
    append(space, end, half).unwrap()
}

fn iteration_count(exponent: Exponent) -> u32
    ensures value { result ≡ iterations exponent.value }
    ensures some { 1 ≤ result }
{
    2500 << exponent.value
}

/// PBKDF2 over a keyed digest. The password is the round number and the passphrase. The salt is the half, with `shamir` and the
/// identifier before it unless the flag is set. There are 2500 × 2^e iterations.
#[derive(Clone, Copy)]
pub struct Stretching<D> {
    pub digest: D,
}

impl<D: KeyedDigest> Stretching<D> {
    // Writes the result to `out`, which is as long as the half.
    // The spaces `password` and `text` are for what is digested, and hold zeros afterwards.
    fn stretch(
        &self,
        round: RoundNumber,
        passphrase: &[u8],
        parameters: Parameters,
        half: &[u8],
        password: &mut [u8],
        text: &mut [u8],
        out: &mut [u8],
    )
        requires fits { (length passphrase.now ≤ 100) × (length half.now ≤ 32) × (length out.old ≡ length half.now) }
        requires room { (length password.old ≡ 101) × (length text.old ≡ 44) }
        ensures writes { out.new ≡ with_parameters (stretched D.keyed D.size) passphrase.now parameters round.value half.now }
        ensures wiped { (password.new ≡ replicate (length password.old) 0) × (text.new ≡ replicate (length text.old) 0) }
    {
        let size = self.digest.length();
        let mut link = [0; 64];
        let mut total = [0; 64];
        let key = Wiped { bytes: password };
        let salt = Wiped { bytes: text };
        let key_end = write_password(round, passphrase, key.bytes);
        let salt_end = write_salt(parameters, half, salt.bytes);
        let blocks = Pbkdf2 {
            digest: &self.digest,
            password: &key.bytes[..key_end],
            count: iteration_count(parameters.exponent),
        };
        blocks.fill(
            &mut salt.bytes[..salt_end + 4],
            &mut link[..size],
            &mut total[..size],
            out,
        );
    }
}

impl<D: KeyedDigest> RoundFunction for Stretching<D> {
    ghost function = { stretched D.keyed D.size };

    ghost sized = { λ number phrase id flag e part h k.
        let D' = D.KeyedDigest in
        let size : 0 < D'.size = omega (arith, D.KeyedDigest.small.0) in
        let some : 1 ≤ iterations e = omega (arith, pow_pos e) in
        length-pbkdf2 D'.keyed D'.size D.KeyedDigest.sized size (number ∷ phrase) (salt_of id flag part) (iterations e) (length part) some };

    ghost bytes = { λ number phrase id flag e part h k l m n.
        let D' = D.KeyedDigest in
        bytes-pbkdf2 D'.keyed D.KeyedDigest.bytes D'.size (number ∷ phrase) (salt_of id flag part) (iterations e) (length part) (omega arith, m) (bytes-salt id flag part k n) };

    fn apply(
        &self,
        round: RoundNumber,
        passphrase: &[u8],
        parameters: Parameters,
        half: &[u8],
        out: &mut [u8],
    ) -> Result<usize, Refusal> {
        let length = check_round(passphrase, half, out)?;
        // Arrays with a length beside them, since a secret lies in plain memory that can be wiped.
        let mut password = [0; 101];
        let mut text = [0; 44];
        self.stretch(
            round,
            passphrase,
            parameters,
            half,
            &mut password,
            &mut text,
            &mut out[0..length],
        );
        Ok(length)
    }
}
