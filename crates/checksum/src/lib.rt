//! The checksum of a card's words.
//!
//! The polynomial of a card over the field of 1,024 elements has the coefficients, the highest first: 1, the bytes of the
//! customization string, and the words. A card is right when the polynomial leaves the remainder 1 on division by
//! (x - a)(x - a^2)(x - a^3), where a = 2.
#![tactic(auto)]

ghost use Rattle.std.specs.Prelude.{◌≡◌, true, [], ◌∷◌, ◌++◌, map, Decides, ◌==◌};
ghost use Rattle.std.specs.List.{fold};
ghost use Rattle.field.specs.Gf1024.{element, sum, product};
ghost use Rattle.field.specs.Polynomial.{value_at};
ghost use Rattle.checksum.specs.Values.{values};
ghost use Rattle.checksum.specs.Checksum.{customization as customization_of, coefficients, is_right, Right, Detects, left, remainder_of, check_words_of};

use field::Field;
use field::gf1024::Gf1024;
use field::polynomial::evaluate;

/// The string that goes before the words of a card, as bytes.
// `extendable` is a `bool`, as the flag is one bit of a card.
fn customization(extendable: bool) -> &'static [u8]
    ensures { result.now ≡ customization_of extendable }
{
    if extendable {
        b"shamir_extendable"
    } else {
        b"shamir"
    }
}

/// The value at `x` of the polynomial whose coefficients are 1 and the customization string.
fn customization_at(x: Gf1024, extendable: bool) -> Gf1024
    ensures { result ≡ fold (λ v n. value_at (element 0) (element 1) sum product x (v ∷ element n ∷ [])) (element 1) (customization_of extendable) }
{
    customization(extendable)
        .iter()
        .fold(Gf1024::one(), |value, byte| {
            evaluate(x, value, &[Gf1024::from(*byte)])
        })
}

/// Whether the polynomial of a card has the value 1 at `a`.
fn is_one_at(a: u8, extendable: bool, words: &[Gf1024]) -> bool
    ensures { result ≡ ((value_at (element 0) (element 1) sum product (element a) (coefficients extendable (values words.now))).value == 1) }
{
    let x = Gf1024::from(a);
    evaluate(x, customization_at(x, extendable), words) == Gf1024::one()
}

/// Whether the polynomial of a card leaves the remainder 1 on division by (x - 2)(x - 4)(x - 8).
pub fn is_right(extendable: bool, words: &[Gf1024]) -> bool
    ensures remainder { result ≡ is_right extendable (values words.now) }
    ensures quotient { Decides result (Right extendable (values words.now)) }
    ensures detects { result ≡ true → Detects extendable words.now }
{
    // A polynomial leaves 1 exactly when it has the value 1 at the three roots of the divisor.
    [2, 4, 8].iter().all(|a| is_one_at(*a, extendable, words))
}

/// What division by (x - 2)(x - 4)(x - 8) leaves of the coefficients so far.
// Three fields and not an array: of a closure that takes an array the proof knows too little for the folds below.
#[derive(Clone, Copy)]
struct Remainder {
    high: Gf1024,
    middle: Gf1024,
    low: Gf1024,
}

impl Remainder {
    /// That of 1 and the customization string.
    fn of_customization(extendable: bool) -> Remainder
        ensures { left result ≡ remainder_of (element 0 ∷ element 0 ∷ map element (1 ∷ customization_of extendable)) }
    {
        let start = Remainder {
            high: Gf1024::zero(),
            middle: Gf1024::zero(),
            low: Gf1024::one(),
        };
        customization(extendable)
            .iter()
            .fold(start, |remainder, byte| {
                remainder.followed_by(Gf1024::from(*byte))
            })
    }

    /// With one more coefficient; the divisor is x^3 + 14 x^2 + 56 x + 64.
    fn followed_by(self, coefficient: Gf1024) -> Remainder
        ensures { left result ≡ remainder_of (left self ++ (coefficient ∷ [])) }
    {
        Remainder {
            high: self.middle.plus(self.high.times(Gf1024::from(14))),
            middle: self.low.plus(self.high.times(Gf1024::from(56))),
            low: coefficient.plus(self.high.times(Gf1024::from(64))),
        }
    }

    /// With more coefficients.
    fn followed_by_all(self, more: &[Gf1024]) -> Remainder
        ensures { left result ≡ remainder_of (left self ++ more.now) }
    {
        more.iter()
            .fold(self, |remainder, c| remainder.followed_by(*c))
    }
}

/// The three words that make the words right.
pub fn check_words(extendable: bool, words: &[Gf1024]) -> [Gf1024; 3]
    ensures value { values result ≡ check_words_of (customization_of extendable ++ values words.now) }
    ensures right { is_right extendable (values (words.now ++ result)) ≡ true }
    ensures quotient { Right extendable (values (words.now ++ result)) }
    ensures only { (a b c : Gf1024) → is_right extendable (values (words.now ++ (a ∷ b ∷ c ∷ []))) ≡ true → a ∷ b ∷ c ∷ [] ≡ result }
{
    let remainder = Remainder::of_customization(extendable)
        .followed_by_all(words)
        .followed_by_all(&[Gf1024::zero(); 3]);
    [
        remainder.high,
        remainder.middle,
        remainder.low.plus(Gf1024::one()),
    ]
}
