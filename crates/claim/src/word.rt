// The words by which claims begin.
ghost use Rattle.std.specs.Prelude.{◌≡◌, ◌≤◌, find};
ghost use Rattle.std.specs.Str.{bytes_eq};
ghost use Rattle.claim.specs.Claims.{text_of, count_of, named};

#[derive(Clone, Copy)]
pub(crate) enum Word {
    Passed,
    TooLate,
    TooEarly,
    From,
    Through,
    Margins,
    Smallest,
    Period,
}

// All of them.
const ALL: [Word; 8] = [
    Word::Passed,
    Word::TooLate,
    Word::TooEarly,
    Word::From,
    Word::Through,
    Word::Margins,
    Word::Smallest,
    Word::Period,
];

// The first of some words that is written so.
fn first(text: &[u8], words: &[Word]) -> Option<Word>
    ensures { result ≡ find (λ w. bytes_eq text.now (text_of w)) words.now }
{
    words
        .iter()
        .find(|word| lines::same(text, word.text().as_bytes()))
        .copied()
}

impl Word {
    // The word that is written so.
    #[tactic(auto, unfolding(crate::specs::Claims::named))]
    pub(crate) fn of(text: &[u8]) -> Option<Word>
        ensures { result ≡ named text.now }
    {
        first(text, &ALL)
    }

    // How many numbers stand after it.
    pub(crate) fn count(self) -> usize
        ensures count { result ≡ count_of self }
        ensures at_most { result ≤ 4 }
    {
        match self {
            Word::Passed => 0,
            Word::From | Word::Period => 1,
            Word::Through | Word::Margins => 2,
            Word::TooLate | Word::TooEarly => 3,
            Word::Smallest => 4,
        }
    }

    // As it is written.
    pub(crate) fn text(self) -> &'static str
        ensures { result.now ≡ text_of self }
    {
        match self {
            Word::Passed => "passed",
            Word::TooLate => "too-late",
            Word::TooEarly => "too-early",
            Word::From => "from",
            Word::Through => "through",
            Word::Margins => "margins",
            Word::Smallest => "smallest",
            Word::Period => "period",
        }
    }
}
