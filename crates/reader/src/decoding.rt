//! From a card's words to its fields.
ghost use Rattle.std.specs.Prelude.{◌≡◌, ℕ, List};
ghost use Rattle.reader.specs.Reading.{card_in, meant};
ghost use Rattle.reader.specs.Words.{Holds};

use crate::card::Card;
use crate::card_words::CardWords;
use crate::words::Words;
use refusal::Refusal;

/// The card that the words of a line say.
pub(crate) fn card(words: &Words) -> Result<Card, Refusal>
    ensures { (ws : List ℕ) → Holds words.now ws → meant result ≡ card_in ws }
{
    let refusal = Refusal::WordCount { words: words.count };
    words.all().and_then(CardWords::new).ok_or(refusal)?.card()
}
