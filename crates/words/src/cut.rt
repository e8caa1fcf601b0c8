ghost use Rattle.std.specs.Prelude.{MatchOption};
ghost use Rattle.words.specs.Words.{Without};
ghost use Rattle.words.specs.Tokens.{HasCut};

// A text up to the first byte that is sought, and what follows that byte.
#[tactic(auto, using(crate::proofs::Cuts::without_more))]
pub(crate) fn cut(text: &[u8], sought: u8) -> Option<(&[u8], &[u8])>
    ensures { MatchOption result (Without sought text.now) (HasCut sought text.now) }
{
    for at in 0..text.len() {
        if text[at] == sought {
            return Some((&text[..at], &text[at + 1..]));
        }
    }
    None
}
