//! Bytes as a command gives them: hexadecimal digits, or `-` for none; `*` and a count after them repeat them.
ghost use Rattle.std.specs.Prelude.{◌≡◌, IfOk};
ghost use Rattle.std.specs.Option.{option_map};
ghost use Rattle.digests.specs.Data.{has_capital, bytes_in, number_in, repeated, bytes_of};

use std::alloc::{AllocError, Global};

fn has_capital(digits: &[u8]) -> bool
    ensures { result ≡ has_capital digits.now }
{
    // All of them, and not `any`, which ends at the first: so the compiler looks at many at once.
    let mut found = false;
    for b in digits {
        found |= (b'A'..=b'F').contains(b);
    }
    found
}

/// The bytes that digits write. No letter is a capital here, though the library would take it.
fn unhex(heap: Global, digits: &[u8]) -> Result<Option<Vec<u8>>, AllocError>
    ensures { IfOk result (λ bytes. option_map (λ v. v.items) bytes ≡ bytes_in digits.now) }
{
    if digits.len() % 2 != 0 || has_capital(digits) {
        return Ok(None);
    }
    let mut bytes = Vec::from_elem(heap, 0, digits.len() / 2)?;
    let read = hex::decode_to_slice(digits, bytes.as_mut_slice());
    Ok(read.ok().map(|()| bytes))
}

/// The number below 2^32 that digits write.
// Beside `size_in`, and not one function over both types: what `parse` promises of any type names no number of bits.
#[tactic(auto, using(crate::proofs::Numbers::parsed))]
pub fn count_in(word: &str) -> Option<u32>
    ensures { result ≡ number_in 32 word.now }
{
    word.parse::<u32>().ok()
}

/// The number below 2^16 that digits write.
#[tactic(auto, using(crate::proofs::Numbers::parsed))]
pub fn size_in(word: &str) -> Option<u16>
    ensures { result ≡ number_in 16 word.now }
{
    word.parse::<u16>().ok()
}

/// The bytes that digits write, as often as a count says.
fn repeated(heap: Global, digits: &[u8], count: &str) -> Result<Option<Vec<u8>>, AllocError>
    ensures { IfOk result (λ bytes. option_map (λ v. v.items) bytes ≡ repeated (number_in 32 count.now) (bytes_in digits.now)) }
{
    let (Some(count), Some(bytes)) = (count_in(count), unhex(heap, digits)?) else {
        return Ok(None);
    };
    Ok(Some(bytes.as_slice().repeat(heap, count as usize)?))
}

/// The bytes that a word of a command stands for.
pub fn decode(heap: Global, word: &str) -> Result<Option<Vec<u8>>, AllocError>
    ensures { IfOk result (λ bytes. option_map (λ v. v.items) bytes ≡ bytes_of word.now) }
{
    if word == "-" {
        return Ok(Some(Vec::new(heap)));
    }
    match word.split_once('*') {
        Some((digits, count)) => repeated(heap, digits.as_bytes(), count),
        None => unhex(heap, word.as_bytes()),
    }
}
