//! Choosing the sentences to show if there are too many.
ghost use Rattle.std.specs.Prelude.{◌≡◌};
ghost use Rattle.klp_timeline.specs.Shown.{is_lasting, is_left_out, excess, left_out};

use crate::moment::{Said, Sentence};

/// How many sentences are shown at most. If more sentences than this last until the end of the run, all of those are
/// shown, and no others.
pub const MAX_SENTENCES: usize = 100;

/// Whether a sentence is about a stay that lasts until the end of the run. False if the sentence is about a fact.
pub fn is_lasting(sentence: &Sentence) -> bool
    ensures { result ≡ is_lasting sentence.now }
{
    match &sentence.said {
        Said::Did(_) => false,
        Said::Slept(sleepers) => sleepers.to.is_none(),
    }
}

/// Returns how many more than [`MAX_SENTENCES`] sentences there are, or 0 if there are no more.
pub fn excess(sentences: &[Sentence]) -> usize
    ensures { result ≡ excess sentences.now }
{
    sentences.len().saturating_sub(MAX_SENTENCES)
}

/// Whether this sentence isn't shown. `excess` is the number of sentences that must still be left out when this
/// sentence's turn comes. A sentence that lasts until the end of the run is always shown.
pub fn is_left_out(excess: usize, sentence: &Sentence) -> bool
    ensures { result ≡ is_left_out excess sentence.now }
{
    excess > 0 && !is_lasting(sentence)
}

/// Returns how many sentences aren't shown: the oldest, as many as exceed [`MAX_SENTENCES`]. If so many last until the
/// end of the run that there aren't enough others, returns the number of the others.
pub fn left_out(sentences: &[Sentence]) -> usize
    ensures { result ≡ left_out sentences.now }
{
    let mut excess = excess(sentences);
    let mut count = 0;
    for sentence in sentences {
        if is_left_out(excess, sentence) {
            excess -= 1;
            count += 1;
        }
    }
    count
}
