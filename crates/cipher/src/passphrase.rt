//! Passphrases.
ghost use Rattle.std.specs.Prelude.{◌≡◌};
ghost use Rattle.cipher.specs.Passphrase.{is_printable, first_bad, passphrase_answer};

use refusal::Refusal;

/// The most bytes that a passphrase may have.
pub const LONGEST_PASSPHRASE: usize = 100;

fn is_printable(byte: u8) -> bool
    ensures { result ≡ is_printable byte }
{
    (32..=126).contains(&byte)
}

fn first_bad(passphrase: &[u8]) -> Option<usize>
    ensures { result ≡ first_bad passphrase.now }
{
    passphrase.iter().position(|byte| !is_printable(*byte))
}

/// Refuses a passphrase with a byte that is not 32 to 126, at the first of them wherever it stands,
/// and else one of more than 100 bytes.
pub fn check_passphrase(passphrase: &[u8]) -> Result<(), Refusal>
    ensures { result ≡ passphrase_answer passphrase.now }
{
    if let Some(position) = first_bad(passphrase) {
        return Err(Refusal::Passphrase { position });
    }
    if passphrase.len() > LONGEST_PASSPHRASE {
        return Err(Refusal::Passphrase {
            position: LONGEST_PASSPHRASE,
        });
    }
    Ok(())
}
