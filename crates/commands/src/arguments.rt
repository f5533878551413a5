//! The arguments of a command, with one space between them.
ghost use Rattle.std.specs.Prelude.{◌≡◌, if◌then◌else◌, Some, None, ◌==◌};
ghost use Rattle.std.specs.Option.{option_map};
ghost use Rattle.reader.specs.Card.{parts_of};
ghost use Rattle.commands.specs.Arguments.{separated, digit_from, number_in, is_number, number_from, value_from, fields_from};

use crate::text::cut;
use numbers::Number;
use reader::card_parts::CardParts;
use reader::value::Value;

fn digit(byte: u8) -> Option<u16>
    ensures { result ≡ digit_from 10 byte }
{
    Some((byte as char).to_digit(10)? as u16)
}

/// The number below 2^16 that decimal digits write.
fn decimal(text: &[u8]) -> Option<u16>
    ensures { result ≡ number_from 0 65535 text.now }
{
    if text.is_empty() {
        return None;
    }
    // Not `parse`, which takes a leading `+`; and of `try_fold` the library has no lemma.
    let mut total: u16 = 0;
    for b in text {
        total = total.checked_mul(10)?.checked_add(digit(*b)?)?;
    }
    Some(total)
}

fn number<N: Number>(text: &[u8]) -> Option<N>
    ensures { option_map N.number result ≡ number_from N.LEAST N.MOST text.now }
{
    N::new(decimal(text)?)
}

fn flag(text: &[u8]) -> Option<bool>
    ensures { result ≡ (if is_number 0 1 text.now then Some (number_in text.now == 1) else None) }
{
    match decimal(text)? {
        0 => Some(false),
        1 => Some(true),
        _ => None,
    }
}

/// The value that hexadecimal digits write, two for each byte.
fn value(text: &[u8]) -> Option<Value>
    ensures { option_map (λ v. v.bytes) result ≡ value_from text.now }
{
    let count = text.len() / 2;
    if count > 64 {
        return None;
    }
    let mut bytes = [0; 64];
    hex::decode_to_slice(text, &mut bytes[..count]).ok()?;
    Value::new(bytes, count)
}

/// The parts of a card from nine arguments, in the order in which a card holds its fields.
pub(crate) fn card_parts(line: &[u8]) -> Option<CardParts>
    ensures { option_map parts_of result ≡ fields_from (separated line.now) }
{
    // Each `cut` states the texts that are left; after nine `next()?` of `split` the ways out did not prove.
    let (identifier, rest) = cut(line);
    let (extendable, rest) = cut(rest?);
    let (exponent, rest) = cut(rest?);
    let (group, rest) = cut(rest?);
    let (group_threshold, rest) = cut(rest?);
    let (group_count, rest) = cut(rest?);
    let (member, rest) = cut(rest?);
    let (member_threshold, rest) = cut(rest?);
    let (bytes, rest) = cut(rest?);
    if rest.is_some() {
        return None;
    }
    Some(CardParts {
        identifier: number(identifier)?,
        extendable: flag(extendable)?,
        exponent: number(exponent)?,
        group: number(group)?,
        group_threshold: number(group_threshold)?,
        group_count: number(group_count)?,
        member: number(member)?,
        member_threshold: number(member_threshold)?,
        value: value(bytes)?,
    })
}
