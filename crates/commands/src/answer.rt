//! The lines that answer commands.
ghost use Rattle.std.specs.Prelude.{◌≡◌, length, IfOk, string_bytes};
ghost use Rattle.reader.specs.Card.{fields_of};
ghost use Rattle.reader.specs.Writing.{Plain, text_of};
ghost use Rattle.commands.specs.Answers.{hex_of, deal_fields, group_fields, member_fields, card_line, text_line, refused_line};

use lexicon::Lexicon;
use reader::card::Card;
use reader::writing::write_card;
use refusal::Refusal;
use std::alloc::{AllocError, Global};
use std::str::from_utf8;

/// As many bytes as 59 words of eight letters have, with a space between.
const LONGEST_TEXT: usize = 59 * 8 + 58;

/// Two lowercase hexadecimal digits for each byte.
#[tactic(auto, using(crate::proofs::HexValues::encoded))]
pub fn hex(heap: Global, bytes: &[u8]) -> Result<String, AllocError>
    ensures { IfOk result (λ s. string_bytes s ≡ hex_of bytes.now) }
{
    hex::encode(heap, bytes)
}

// In parts, since the check does not prove the text of one format of nine fields; a `Display` of each part would be a struct and an impl more.
fn deal_fields(heap: Global, card: &Card) -> Result<String, AllocError>
    ensures { IfOk result (λ s. string_bytes s ≡ deal_fields (fields_of card.now)) }
{
    format!(in heap;
        "identifier={} flag={} exponent={}",
        card.parts.identifier.value,
        u8::from(card.parts.extendable),
        card.parts.exponent.value,
    )
}

fn group_fields(heap: Global, card: &Card) -> Result<String, AllocError>
    ensures { IfOk result (λ s. string_bytes s ≡ group_fields (fields_of card.now)) }
{
    format!(in heap;
        "group={} group_threshold={} group_count={}",
        card.parts.group.value, card.parts.group_threshold.value, card.parts.group_count.value,
    )
}

fn member_fields(heap: Global, card: &Card) -> Result<String, AllocError>
    ensures { IfOk result (λ s. string_bytes s ≡ member_fields (fields_of card.now)) }
{
    format!(in heap;
        "member={} member_threshold={}",
        card.parts.member.value, card.parts.member_threshold.value,
    )
}

/// The answer that shows a card.
pub fn card_line(heap: Global, card: &Card) -> Result<String, AllocError>
    ensures { IfOk result (λ s. string_bytes s ≡ card_line (fields_of card.now)) }
{
    let deal = deal_fields(heap, card)?;
    let group = group_fields(heap, card)?;
    let member = member_fields(heap, card)?;
    let value = hex(heap, card.parts.value.bytes())?;
    format!(in heap; "card {deal} {group} {member} value={value}")
}

fn plain_str(bytes: &[u8]) -> &str
    requires { Plain bytes.now }
    ensures { result.now ≡ bytes.now }
{
    from_utf8(bytes).unwrap()
}

/// The text of a card, at the front of the space.
fn card_text_in<'a, L: Lexicon>(lexicon: &L, card: &Card, space: &'a mut [u8]) -> &'a str
    requires { length space.old ≡ 530 }
    ensures { result.now ≡ text_of (L.words lexicon.now) (fields_of card.now) }
{
    let count = write_card(lexicon, card, space).unwrap();
    plain_str(&space[0..count])
}

/// The answer that shows the text of a card.
pub fn text_line<L: Lexicon>(heap: Global, lexicon: &L, card: &Card) -> Result<String, AllocError>
    ensures { IfOk result (λ s. string_bytes s ≡ text_line (L.words lexicon.now) (fields_of card.now)) }
{
    let mut space = [0; LONGEST_TEXT];
    let text = card_text_in(lexicon, card, &mut space);
    format!(in heap; "text {text}")
}

/// The answer that tells of a refusal.
pub fn refused_line(heap: Global, refusal: Refusal) -> Result<String, AllocError>
    ensures { IfOk result (λ s. string_bytes s ≡ refused_line refusal) }
{
    format!(in heap;
        "refused {} {} {}: {refusal}",
        refusal.number(),
        refusal.layer(),
        refusal.place(),
    )
}
