ghost use Rattle.std.specs.Prelude.{ℕ, ◌<◌, ◌≤◌, ◌^◌, length, MatchOption, IfOk};
ghost use Rattle.words.specs.Numbers.{Digits, Number, PlainNumber, Value, MatchForm};

use crate::fault::WordFault;

/// The most digits of a plain number.
pub const PLAIN_DIGITS: usize = 9;

/// The most digits of a value, without its sign.
pub const VALUE_DIGITS: usize = 18;

/// A plain number: one digit up to nine.
pub fn plain(word: &[u8]) -> Result<usize, WordFault>
    ensures { MatchForm result (PlainNumber word.now) }
{
    let number = number(word, PLAIN_DIGITS)?;
    Ok(number as usize)
}

/// A value: one digit up to eighteen, with or without a minus in front. There is no minus in front of 0.
#[tactic(auto, using(crate::proofs::Numerals::no_minus_zero, crate::proofs::Numerals::no_minus))]
pub fn value(word: &[u8]) -> Result<i64, WordFault>
    ensures { MatchForm result (Value word.now) }
{
    match word {
        [b'-', digits @ ..] => {
            let size = number(digits, VALUE_DIGITS)?;
            if size == 0 {
                return Err(WordFault::NumberForm);
            }
            Ok(-(size as i64))
        }
        digits => {
            let size = number(digits, VALUE_DIGITS)?;
            Ok(size as i64)
        }
    }
}

// A number of one digit up to so many, without zeros in front.
#[tactic(auto, using(crate::proofs::Numerals::digits_small))]
fn number(word: &[u8], most: usize) -> Result<u64, WordFault>
    requires { most ≤ 18 }
    ensures small { IfOk result (λ n. n < 10 ^ 18) }
    ensures read { MatchForm result (Number most word.now) }
{
    match word {
        [] => Err(WordFault::NumberForm),
        [b'0', _, ..] => Err(WordFault::NumberForm),
        _ if word.len() > most => Err(WordFault::NumberForm),
        _ => digits(word).ok_or(WordFault::NumberForm),
    }
}

// What up to eighteen digits write.
#[tactic(auto, using(crate::proofs::Numerals::not_digits, crate::proofs::Numerals::ten_more, crate::proofs::Numerals::ten_powers, crate::proofs::Numerals::digits_so_far))]
fn digits(word: &[u8]) -> Option<u64>
    requires { length word.now ≤ 18 }
    ensures { MatchOption result ((n : ℕ) → Digits word.now n → ⊥) (Digits word.now) }
{
    let mut number = 0;
    for at in 0..word.len() {
        let byte = word[at];
        if !byte.is_ascii_digit() {
            return None;
        }
        number = 10 * number + u64::from(byte - b'0');
    }
    Some(number)
}
