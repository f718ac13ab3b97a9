// The words of a line (docs/LINES.md), between single spaces; and a text written into an answer.
#![tactic(auto)]

ghost use Rattle.std.specs.Prelude.{◌≡◌};
ghost use Rattle.octets.specs.Octets.{written_at};
ghost use Rattle.words.specs.Words.{word_of, word_count};
ghost use Rattle.words.specs.Written.{place_after};

// The word numbered n, from 0; no bytes past the last.
pub fn word<'a>(s: &'a [u8], n: usize) -> &'a [u8]
    ensures { result.now ≡ word_of n s.now }
{
    s.split(|byte| *byte == b' ').nth(n).unwrap_or(&[])
}

// One word more than there are spaces.
pub fn count_words(s: &[u8]) -> usize
    ensures { result ≡ word_count s.now }
{
    s.iter().filter(|byte| **byte == b' ').count() + 1
}

// Writes into `out` from a place on, and answers the place after; where all of it does not fit, nothing
// is written and the place stays. That a place goes in and comes out, here and in all that writes an
// answer, is what the theorems of GrammarOutcome (promises) say of these functions by name.
#[tactic(auto, using(crate::proofs::Written::place_fits, crate::proofs::Written::place_not, octets::proofs::Laws::written_not))]
pub fn write_text(text: &[u8], out: &mut [u8], at: usize) -> usize
    ensures place { result ≡ place_after out.old at text.now }
    ensures left { out.new ≡ written_at out.old at text.now }
{
    if out.len() < at {
        return at;
    }
    if out.len() - at < text.len() {
        return at;
    }
    octets::write_at(text, out, at);
    at + text.len()
}
