//! The words of lines.

ghost use Rattle.std.specs.Prelude.{◌≡◌, drop, length};
ghost use Rattle.std.specs.List.{after_first, before_first};
ghost use Rattle.tool_layout.specs.Names.{is_space};

/// The first word of a text, and what is behind it, from the space on.
pub(crate) fn cut_word(text: &str) -> (&str, &str)
    ensures word { result.0.now ≡ before_first is_space text.now }
    ensures behind { result.1.now ≡ drop (length (before_first is_space text.now)) text.now }
{
    match text.split_once(' ') {
        Some((word, _)) => (word, &text[word.len()..]),
        None => (text, ""),
    }
}

/// The first word of a text, and what is behind the space after it.
pub(crate) fn split_word(text: &str) -> (&str, &str)
    ensures word { result.0.now ≡ before_first is_space text.now }
    ensures behind { result.1.now ≡ after_first is_space text.now }
{
    match text.split_once(' ') {
        Some((word, behind)) => (word, behind),
        None => (text, ""),
    }
}
