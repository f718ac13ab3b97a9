// The operands of a line by their place, the entry's name being word 0. What is malformed reads as 0, which
// GrammarOutcome (promises) says of `number_at` by name: `has_form` is asked before.
ghost use Rattle.std.specs.Prelude.{◌≡◌};
ghost use Rattle.lines.specs.Operands.{is_places, is_kind, are_kinds, has_form, number_at};

#[tactic(auto, unfolding(crate::specs::Operands::is_places))]
fn is_places(word: &[u8]) -> bool
    ensures { result ≡ is_places word.now }
{
    matches!(word, [b'4' | b'6'])
}

// A kind stays its letter: what `has_form` promises of a letter that is no kind stands in its contract.
#[tactic(auto, using(crate::proofs::Forms::is_number_is, crate::proofs::Forms::is_signed_is), unfolding(crate::specs::Operands::is_kind))]
fn is_kind(word: &[u8], kind: u8) -> bool
    ensures { result ≡ is_kind kind word.now }
{
    match kind {
        b'n' => true,
        b'b' => numerals::read_number(word, u8::MAX as u64).is_some(),
        b'h' => numerals::read_number(word, u16::MAX as u64).is_some(),
        b'w' => numerals::read_number(word, u32::MAX as u64).is_some(),
        b'd' => numerals::read_number(word, u64::MAX).is_some(),
        b's' => numerals::read_signed(word).is_some(),
        b'p' => is_places(word),
        b'x' => hex_words::are_bytes(word),
        b'f' => hex_words::is_single(word),
        _ => false,
    }
}

fn are_kinds(line: &[u8], kinds: &[u8]) -> bool
    ensures { result ≡ are_kinds 0 line.now kinds.now }
{
    kinds
        .iter()
        .enumerate()
        .all(|(n, kind)| is_kind(words::word(line, n), *kind))
}

// Each word of its kind: at least so many words, and at most as many as kinds.
pub fn has_form(line: &[u8], kinds: &[u8], least: usize) -> bool
    ensures { result ≡ has_form least line.now kinds.now }
{
    let count = words::count_words(line);
    if kinds.len() < count {
        return false;
    }
    least <= count && are_kinds(line, &kinds[..count])
}

pub fn number_at(line: &[u8], n: usize, most: u64) -> u64
    ensures { result ≡ number_at most n line.now }
{
    numerals::read_number(words::word(line, n), most).unwrap_or(0)
}
