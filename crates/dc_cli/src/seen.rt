// Words that are seen one at a time.
ghost use Rattle.std.specs.Prelude.{◌≡◌, MatchResult, Some, List, ℕ, Option};
ghost use Rattle.dc_cli.specs.DatabaseReading.{after, IsStopped};

use dc_text::Text;

// What was seen of a tool's words.
pub(crate) trait Seen: Copy {
    // What is seen with one more word, unless no words of the tool begin so.
    ghost with_word: { Self → List ℕ → Option Self };

    fn next(self, word: &[u8]) -> Option<Self>
        ensures { result ≡ with_word self word.now };
}

// What is seen after all words, or the place of the first that isn't taken.
pub(crate) fn see<S: Seen>(first: S, words: &[Text]) -> Result<S, usize>
    ensures { MatchResult result (λ seen. after S.with_word (Some first) words.now ≡ Some seen) (IsStopped S.with_word first words.now) }
{
    let mut seen = first;
    let mut rest = words;
    while let [word, behind @ ..] = rest {
        match seen.next(word.bytes()) {
            Some(more) => {
                seen = more;
                rest = behind;
            }
            None => return Err(1 + (words.len() - rest.len())),
        }
    }
    Ok(seen)
}
