//! Reading a word file, one line after the other.
ghost use Rattle.std.specs.Prelude.{◌≡◌, ◌≤◌, length, take, if◌then◌else◌, Some, None};
ghost use Rattle.lexicon.specs.WordFile.{begins_with_line, file_words, letters_of, next_word, words_of};
ghost use Rattle.lexicon.specs.WordOrder.{follows as follows_word, letter_count};

use super::WordFile;
use crate::word::Word;
use refusal::Refusal;

/// How many letters a to z the bytes begin with.
fn letter_count(bytes: &[u8]) -> usize
    ensures count { result ≡ letter_count bytes.now }
    ensures bound { result ≤ length bytes.now }
{
    bytes
        .iter()
        .take_while(|byte| byte.is_ascii_lowercase())
        .count()
}

/// The word of the line that the bytes begin with: four to eight letters and a line feed.
fn first_word(bytes: &[u8]) -> Option<Word>
    ensures { result ≡ (if begins_with_line bytes.now then Some (letters_of bytes.now) else None) }
{
    let (letters, rest) = bytes.split_at(letter_count(bytes));
    match (letters.len(), rest) {
        (4..=8, [b'\n', ..]) => Some(Word::of(letters)),
        _ => None,
    }
}

/// The first four bytes, or all if there are fewer.
fn first_four(bytes: &[u8]) -> &[u8]
    ensures { result.now ≡ take 4 bytes.now }
{
    bytes.get(..4).unwrap_or(bytes)
}

/// Whether a word may stand after the one before.
fn follows(previous: Option<Word>, word: &Word) -> bool
    ensures { result ≡ follows_word previous word.now }
{
    previous.is_none_or(|previous| {
        previous.bytes() < word.bytes() && !word.bytes().starts_with(first_four(previous.bytes()))
    })
}

/// The word of the line that the bytes begin with, if that line may stand after the word before.
fn next_word(previous: Option<Word>, bytes: &[u8]) -> Option<Word>
    ensures { result ≡ next_word previous bytes.now }
{
    first_word(bytes).filter(|word| follows(previous, word))
}

impl WordFile {
    /// The words of a file of 1,024 lines, each of four to eight letters a to z and a line feed. After the first, each
    /// line is greater in byte order than the one before and differs from it within the first four letters. A faulty
    /// file is refused with the offset of its first faulty line, or its length if lines are missing.
    pub fn new(file: &[u8]) -> Result<WordFile, Refusal>
        ensures { words_of result ≡ file_words file.now }
    {
        let mut words = [Word::new([0; 8], 0); 1024];
        let mut previous = None;
        let mut offset = 0;
        for word in &mut words {
            *word = next_word(previous, &file[offset..]).ok_or(Refusal::FaultyWordFile { offset })?;
            offset += word.bytes().len() + 1;
            previous = Some(*word);
        }
        if offset < file.len() {
            return Err(Refusal::FaultyWordFile { offset });
        }
        Ok(WordFile { words })
    }
}
