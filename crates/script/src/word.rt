// The words that a script line begins with.
ghost use Rattle.std.specs.Prelude.{◌≡◌};
ghost use Rattle.script.specs.Word.{word_of, takes_text};

use profile::numbers::Verdict;

#[derive(Clone, Copy, Debug, PartialEq, Eq)]
pub(crate) enum Word {
    Line,
    Hexline,
    Verdict(Verdict),
    Ended,
    Who,
    Close,
}

// The word that a text is.
#[tactic(auto, using(crate::proofs::Texts::told_word))]
pub(crate) fn word_of(text: &[u8]) -> Option<Word>
    ensures { result ≡ word_of text.now }
{
    match text {
        b"line" => Some(Word::Line),
        b"hexline" => Some(Word::Hexline),
        b"challenge" => Some(Word::Verdict(Verdict::Challenge)),
        b"success" => Some(Word::Verdict(Verdict::Success)),
        b"rejected" => Some(Word::Verdict(Verdict::Rejected)),
        b"temporary" => Some(Word::Verdict(Verdict::Temporary)),
        b"transition" => Some(Word::Verdict(Verdict::Transition)),
        b"weak" => Some(Word::Verdict(Verdict::Weak)),
        b"ended" => Some(Word::Ended),
        b"who" => Some(Word::Who),
        b"close" => Some(Word::Close),
        _ => None,
    }
}

// Whether a text may follow the number.
pub(crate) fn takes_text(word: Word) -> bool
    ensures { result ≡ takes_text word }
{
    matches!(
        word,
        Word::Line | Word::Hexline | Word::Verdict(Verdict::Challenge | Verdict::Success)
    )
}
