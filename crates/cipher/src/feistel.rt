//! The cipher: four rounds over the halves of a secret, in the caller's memory.
ghost use Rattle.std.specs.Prelude.{◌≡◌, ◌+◌, ◌/◌, ◌≤◌, true, length, replicate, Ok};
ghost use Rattle.cipher.specs.Passphrase.{passphrase_answer};
ghost use Rattle.cipher.specs.Answers.{replaced};
ghost use Rattle.cipher.specs.Feistel.{with_parameters, halved, turned, in_rounds, encrypted, decrypted, is_secret_length, cipher_answer, Undone};

use crate::passphrase::check_passphrase;
use crate::round::RoundFunction;
use crate::wiped::Wiped;
use digest::xor_into;
use numbers::{Parameters, RoundNumber};
use refusal::Refusal;

const ROUNDS: [RoundNumber; 4] = [
    RoundNumber { value: 0 },
    RoundNumber { value: 1 },
    RoundNumber { value: 2 },
    RoundNumber { value: 3 },
];

// A round function, with all that it takes besides the round number and the half.
#[derive(Drop)]
struct Setting<'f, 'p, F> {
    function: &'f F,
    passphrase: &'p [u8],
    parameters: Parameters,
}

impl<F: RoundFunction> Setting<'_, '_, F> {
    // Takes the secret's halves through one round. The mask is as long as a half.
    fn turn(&self, round: RoundNumber, secret: &mut [u8], mask: &mut [u8])
        requires lawful { passphrase_answer self.now.passphrase.now ≡ Ok tt }
        requires room { (8 ≤ length mask.old) × (length mask.old ≤ 32) × (length mask.old + length mask.old ≡ length secret.old) }
        ensures { halved secret.new ≡ turned (with_parameters F.function self.now.passphrase.now self.now.parameters round.value) (halved secret.old) }
    {
        let half = mask.len();
        // The half and the passphrase are lawful, so nothing is refused.
        self.function
            .apply(
                round,
                self.passphrase,
                self.parameters,
                &secret[half..],
                mask,
            )
            .unwrap();
        xor_into(&mut secret[..half], mask);
        secret.rotate_left(half);
    }

    // Takes the secret through the rounds in their order. The work space is as long as a half, and holds zeros afterwards.
    fn run(&self, order: [RoundNumber; 4], secret: &mut [u8], work: &mut [u8])
        requires lawful { passphrase_answer self.now.passphrase.now ≡ Ok tt }
        requires fits { is_secret_length (length secret.old) ≡ true }
        requires room { length work.old ≡ length secret.old / 2 }
        ensures writes { secret.new ≡ in_rounds (with_parameters F.function self.now.passphrase.now self.now.parameters) order secret.old }
        ensures wiped { work.new ≡ replicate (length work.old) 0 }
    {
        let half = work.len();
        let mask = Wiped { bytes: work };
        for round in order {
            self.turn(round, secret, mask.bytes);
        }
        secret.rotate_left(half);
    }

    // Does the same to a lawful secret, under a lawful passphrase, and answers how many bytes it has.
    fn replace(&self, order: [RoundNumber; 4], secret: &mut [u8]) -> Result<usize, Refusal>
        ensures answer { result ≡ cipher_answer self.now.passphrase.now secret.old }
        ensures writes { secret.new ≡ replaced result (in_rounds (with_parameters F.function self.now.passphrase.now self.now.parameters) order secret.old) secret.old }
    {
        let length = check_secret(self.passphrase, secret)?;
        let mut work = [0; 32];
        self.run(order, secret, &mut work[..length / 2]);
        Ok(length)
    }
}

fn check_secret(passphrase: &[u8], secret: &[u8]) -> Result<usize, Refusal>
    ensures { result ≡ cipher_answer passphrase.now secret.now }
{
    let length = secret.len();
    if length % 2 != 0 || !(16..=64).contains(&length) {
        return Err(Refusal::SecretLength { length });
    }
    check_passphrase(passphrase)?;
    Ok(length)
}

/// Encrypts the secret in place, and answers how many bytes it has.
/// A length that is odd or not 16 to 64 is refused first, then the passphrase; a refusal leaves the secret as it was.
#[tactic(auto, using(crate::proofs::Inverse::undone), unfolding(crate::specs::Feistel::network))]
pub fn encrypt<F: RoundFunction>(
    function: &F,
    passphrase: &[u8],
    parameters: Parameters,
    secret: &mut [u8],
) -> Result<usize, Refusal>
    ensures answer { result ≡ cipher_answer passphrase.now secret.old }
    ensures writes { secret.new ≡ replaced result (encrypted (with_parameters F.function passphrase.now parameters) secret.old) secret.old }
    ensures undone { Undone (with_parameters F.function passphrase.now parameters) }
{
    let setting = Setting {
        function,
        passphrase,
        parameters,
    };
    setting.replace(ROUNDS, secret)
}

/// Decrypts the secret in place, and answers how many bytes it has.
/// A length that is odd or not 16 to 64 is refused first, then the passphrase; a refusal leaves the secret as it was.
// A function beside `encrypt`, since each has clauses of its own; their one body is `replace`.
#[tactic(auto, using(crate::proofs::Inverse::undone), unfolding(crate::specs::Feistel::network))]
pub fn decrypt<F: RoundFunction>(
    function: &F,
    passphrase: &[u8],
    parameters: Parameters,
    secret: &mut [u8],
) -> Result<usize, Refusal>
    ensures answer { result ≡ cipher_answer passphrase.now secret.old }
    ensures writes { secret.new ≡ replaced result (decrypted (with_parameters F.function passphrase.now parameters) secret.old) secret.old }
    ensures undone { Undone (with_parameters F.function passphrase.now parameters) }
{
    let setting = Setting {
        function,
        passphrase,
        parameters,
    };
    let mut order = ROUNDS;
    order.reverse();
    setting.replace(order, secret)
}
