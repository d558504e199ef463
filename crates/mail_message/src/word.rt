// Words that stand in any case of letters.
ghost use Rattle.std.specs.Prelude.{◌≡◌, ◌<◌, length, position};
ghost use Rattle.std.specs.Option.{IfSome};
ghost use Rattle.std.specs.List.{list_any};
ghost use Rattle.mail_message.specs.Word.{is_word};

/// Whether a text is a word in any case of letters.
pub fn is_word(text: &[u8], word: &[u8]) -> bool
    ensures { result ≡ is_word text.now word.now }
{
    text.eq_ignore_ascii_case(word)
}

/// Whether a text is one of some words in any case of letters.
pub fn is_some_word(text: &[u8], words: &[&[u8]]) -> bool
    ensures { result ≡ list_any (λ word. is_word text.now word.now) words.now }
{
    words.iter().any(|word| is_word(text, word))
}

/// Which of some words a text is, in any case of letters: the place of the first.
pub fn place_of_word(text: &[u8], words: &[&[u8]]) -> Option<usize>
    ensures place { result ≡ position (λ word. is_word text.now word.now) words.now }
    ensures within { IfSome result (λ at. at < length words.now) }
{
    words.iter().position(|word| is_word(text, word))
}
