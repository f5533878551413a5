//! The commands, one to a line.
ghost use Rattle.std.specs.Prelude.{◌≡◌, IfOk, string_bytes};
ghost use Rattle.digests.specs.Data.{bytes_of};
ghost use Rattle.digests.specs.Replies.{malformed_text, hash_text, digest_reply, digest_of_words, chain_reply, chain_of_words, answer_text};

use crate::data::{count_in, decode, size_in};
use crate::reply::reply;
use digest::{DrillDigest, HmacSha256, KeyedDigest, sha256_of};
use std::alloc::{AllocError, Global};

/// The words of a line; one that is missing stands for no bytes.
#[derive(Clone, Copy)]
struct Words<'a> {
    name: &'a str,
    first: &'a str,
    second: &'a str,
    third: &'a str,
    fourth: &'a str,
}

impl<'a> From<&'a str> for Words<'a> {
    fn from(line: &'a str) -> Words<'a> {
        let mut words = line.split_whitespace();
        Words {
            name: words.next().unwrap_or("-"),
            first: words.next().unwrap_or("-"),
            second: words.next().unwrap_or("-"),
            third: words.next().unwrap_or("-"),
            fourth: words.next().unwrap_or("-"),
        }
    }
}

fn malformed(heap: Global) -> Result<String, AllocError>
    ensures { IfOk result (λ s. string_bytes s ≡ malformed_text) }
{
    String::from_str(heap, "malformed")
}

/// `sha256 MESSAGE`
fn answer_hash(heap: Global, words: Words<'_>) -> Result<String, AllocError>
    ensures { IfOk result (λ s. string_bytes s ≡ hash_text (bytes_of words.entry.first.now)) }
{
    match decode(heap, words.first)? {
        Some(message) => hex::encode(heap, sha256_of(message.as_slice())),
        None => malformed(heap),
    }
}

/// The digest of a message in a space of so many bytes, all of them ee before the call.
fn digest_reply<D: KeyedDigest>(
    heap: Global,
    digest: &D,
    size: u16,
    key: &[u8],
    message: &[u8],
) -> Result<String, AllocError>
    ensures { IfOk result (λ s. string_bytes s ≡ digest_reply D.size D.keyed size key.now message.now) }
{
    let mut space = Vec::from_elem(heap, 0xee, usize::from(size))?;
    let answer = digest.digest(key, message, space.as_mut_slice());
    reply(heap, answer, space.as_slice())
}

/// `NAME SPACE KEY MESSAGE`
fn answer_digest<D: KeyedDigest>(
    heap: Global,
    digest: &D,
    words: Words<'_>,
) -> Result<String, AllocError>
    ensures { IfOk result (λ s. string_bytes s ≡ digest_of_words D.size D.keyed words.entry) }
{
    let (Some(size), Some(key), Some(message)) = (
        size_in(words.first),
        decode(heap, words.second)?,
        decode(heap, words.third)?,
    ) else {
        return malformed(heap);
    };
    digest_reply(heap, digest, size, key.as_slice(), message.as_slice())
}

/// The last link of a chain, or the refusal, then the total.
fn chain_reply<D: KeyedDigest>(
    heap: Global,
    digest: &D,
    count: u32,
    key: &[u8],
    link: &mut [u8],
    total: &mut [u8],
) -> Result<String, AllocError>
    ensures { IfOk result (λ s. string_bytes s ≡ chain_reply D.size D.keyed count key.now link.old total.old) }
{
    let answer = digest.chain(key, count, link, total);
    let mut line = reply(heap, answer, link)?;
    let sum = hex::encode(heap, total)?;
    // In place: `format!` would hold the last link twice.
    write!(line, " {sum}")?;
    Ok(line)
}

/// `NAME-chain COUNT KEY LINK TOTAL`
fn answer_chain<D: KeyedDigest>(
    heap: Global,
    digest: &D,
    words: Words<'_>,
) -> Result<String, AllocError>
    ensures { IfOk result (λ s. string_bytes s ≡ chain_of_words D.size D.keyed words.entry) }
{
    // Before the link and the total, so that these ask for no memory where the count or the key is malformed.
    let (Some(count), Some(key)) = (count_in(words.first), decode(heap, words.second)?) else {
        return malformed(heap);
    };
    let (Some(mut link), Some(mut total)) = (
        decode(heap, words.third)?,
        decode(heap, words.fourth)?,
    ) else {
        return malformed(heap);
    };
    chain_reply(
        heap,
        digest,
        count,
        key.as_slice(),
        link.as_mut_slice(),
        total.as_mut_slice(),
    )
}

/// The answer to the words of a line.
fn answer_words(heap: Global, words: Words<'_>) -> Result<String, AllocError>
    ensures { IfOk result (λ s. string_bytes s ≡ answer_text words.entry) }
{
    match words.name {
        "sha256" => answer_hash(heap, words),
        "hmac" => answer_digest(heap, &HmacSha256, words),
        "drill" => answer_digest(heap, &DrillDigest, words),
        "hmac-chain" => answer_chain(heap, &HmacSha256, words),
        "drill-chain" => answer_chain(heap, &DrillDigest, words),
        _ => malformed(heap),
    }
}

/// The answer to a line.
pub fn answer(heap: Global, line: &str) -> Result<String, AllocError> {
    answer_words(heap, Words::from(line))
}
