ghost use Rattle.std.specs.Prelude.{drop, MatchOption};
ghost use Rattle.words.specs.Words.{LeadsNowhere, MatchWords};
ghost use Rattle.words.specs.Tokens.{IsToken, IsNextWord, one, two, three};

use crate::cut::cut;

/// What stands at a place of a line. The text is the part of the line that begins there.
#[derive(Clone, Copy, PartialEq, Eq, Debug)]
pub enum Token<'a> {
    // A word with a blank behind it, so that another has to follow.
    Word { text: &'a [u8], at: usize },
    // The word that ends the line.
    Last { text: &'a [u8], at: usize },
    // No word where there should be one: a blank, or the end of the line.
    Empty { at: usize },
}

pub fn token_at(line: &[u8], at: usize) -> Token<'_>
    ensures { IsToken line.now at result }
{
    match line.get(at..) {
        None | Some([] | [b' ', ..]) => Token::Empty { at },
        Some(rest) => match cut(rest, b' ') {
            Some((text, _)) => Token::Word { text, at },
            None => Token::Last { text: rest, at },
        },
    }
}

/// The word at a place of a line that more words follow, and the place where they begin.
pub fn next_word(line: &[u8], at: usize) -> Option<(&[u8], usize)>
    ensures { MatchOption result (LeadsNowhere (drop at line.now)) (IsNextWord line.now at) }
{
    match token_at(line, at) {
        Token::Word { text, at } => Some((text, at + text.len() + 1)),
        Token::Last { .. } | Token::Empty { .. } => None,
    }
}

/// The one word from a place of a line to its end.
#[tactic(auto, using(crate::proofs::Splits::no_more, crate::proofs::Splits::word_begins))]
pub fn one_word(line: &[u8], at: usize) -> Option<&[u8]>
    ensures { MatchWords 1 one (drop at line.now) result }
{
    match token_at(line, at) {
        Token::Last { text, .. } => Some(text),
        Token::Word { .. } | Token::Empty { .. } => None,
    }
}

/// The two words from a place of a line to its end.
pub fn two_words(line: &[u8], at: usize) -> Option<(&[u8], &[u8])>
    ensures { MatchWords 2 two (drop at line.now) result }
{
    let (first, next) = next_word(line, at)?;
    let second = one_word(line, next)?;
    Some((first, second))
}

/// The three words from a place of a line to its end.
pub fn three_words(line: &[u8], at: usize) -> Option<(&[u8], &[u8], &[u8])>
    ensures { MatchWords 3 three (drop at line.now) result }
{
    let (first, next) = next_word(line, at)?;
    let (second, third) = two_words(line, next)?;
    Some((first, second, third))
}
