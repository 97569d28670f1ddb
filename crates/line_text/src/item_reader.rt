ghost use Rattle.std.specs.Prelude.{◌≡◌, ℕ, ◌<◌, ◌++◌, ◌∷◌, [], List, Bool, length, IfOk};
ghost use Rattle.vrp_lex.specs.Text.{words_of};
ghost use Rattle.line_text.specs.Words.{Wants, goes_on, until};
ghost use Rattle.line_text.specs.Gives.{Gives, IsShorter};

use crate::fault::LineFault;
use path_graph::List;
use std::alloc::Global;
use vrp_lex::split_word;

/// The items of a list on a line, each of one word or more.
pub trait ItemReader {
    type Item: Drop;

    /// Whether a word stops the list.
    ghost stops: { List ℕ → Bool };

    /// What is wanted of the words of an item, after the items before it.
    ghost wanted: { Self → List Self.Item → Wants Self.Item };

    /// What holds of the sums that are kept beside the items so far.
    ghost sound: { Self → List Self.Item → Type 0 };

    fn stops_at(&self, word: &[u8]) -> bool
        ensures { result ≡ stops word.now };

    /// The next item, and the bytes behind it.
    fn take<'a>(
        &mut self,
        before: &[Self::Item],
        words: &'a [u8],
    ) -> Result<(Self::Item, &'a [u8]), LineFault>
        requires { sound self.old before.now }
        ensures gives { Gives (λ x. (x.0, words_of x.1.now)) result
            (wanted self.old before.now (words_of words.now)) }
        ensures shorter { IfOk result (λ x. IsShorter words.now x.1.now) }
        ensures same { IfOk result (λ x. wanted self.new ≡ wanted self.old) }
        ensures sound { IfOk result (λ x. sound self.new (before.now ++ x.0 ∷ [])) };
}

/// Whether a word is left that does not stop the list.
fn goes_on<R: ItemReader>(reader: &R, words: &[u8]) -> bool
    ensures { result ≡ goes_on R.stops (words_of words.now) }
{
    match split_word(words) {
        None => false,
        Some((word, _)) => !reader.stops_at(word),
    }
}

/// The items up to a word that stops them, or to the end of the line.
pub fn items<'a, R: ItemReader>(
    reader: &mut R,
    alloc: Global,
    words: &'a [u8],
) -> Result<(List<R::Item>, &'a [u8]), LineFault>
    requires { R.sound reader.old [] }
    ensures gives { Gives (λ x. (x.0, words_of x.1.now)) result
        (until R.stops (R.wanted reader.old) (words_of words.now)) }
    ensures sound { IfOk result (λ x. R.sound reader.new x.0) }
{
    let mut items = List::new(alloc);
    let mut rest = words;
    while goes_on(reader, rest) {
        let (item, behind) = reader.take(items.as_slice(), rest)?;
        items.push(item)?;
        rest = behind;
    }
    Ok((items, rest))
}
