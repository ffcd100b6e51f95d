// Where the words of a line begin and end. Blanks stand between words, and a `#` where a word would begin
// ends the line.
ghost use Rattle.std.specs.Prelude.{◌≡◌};
ghost use Rattle.text.specs.Words.{is_blank, from_word, first_word, behind_word};

// By hand: `is_ascii_whitespace` takes a line feed and a form feed besides, which are no blanks of a job.
pub(crate) fn is_blank(b: u8) -> bool
    ensures { result ≡ is_blank b }
{
    b == b' ' || b == b'\t' || b == b'\r'
}

// The text from where its next word begins; empty where none does.
#[tactic(auto, unfolding(crate::specs::Words::from_word))]
pub(crate) fn from_word(text: &[u8]) -> &[u8]
    ensures { result.now ≡ from_word text.now }
{
    match text.iter().position(|b| !is_blank(*b)) {
        Some(at) if text[at] != b'#' => &text[at..],
        _ => &[],
    }
}

// The word that a text begins with, and what is behind it.
pub(crate) fn split_word(text: &[u8]) -> (&[u8], &[u8])
    ensures word { result.0.now ≡ first_word text.now }
    ensures rest { result.1.now ≡ behind_word text.now }
{
    let end = text.iter().position(|b| is_blank(*b)).unwrap_or(text.len());
    text.split_at(end)
}
