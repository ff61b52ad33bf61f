//! The forms that lines have.

/// A part of a line, up to the next space.
#[derive(Clone, Copy, Debug)]
pub enum Part {
    /// This word, which is no member.
    Word(&'static str),
    /// A member with a text, where a word stands: the member's name, the word, and the text.
    Tag(&'static str, &'static str, &'static str),
    /// A member that is `null`, where a word stands: the member's name, and the word.
    Null(&'static str, &'static str),
    /// A number in decimal digits, as the number of the member of this name.
    Number(&'static str),
    /// Any word, as the text of the member of this name.
    Text(&'static str),
    /// All that is left of the line, as the text of the member of this name.
    Rest(&'static str),
    /// The words that are left, none or more, as the list of the member of this name.
    Words(&'static str),
    /// All that is left of the line, an object of JSON, as the value of the member of this name.
    Json(&'static str),
}

/// A form of lines: their parts, with a space between.
#[derive(Clone, Copy, Debug)]
pub struct Form {
    /// The parts, in order.
    pub parts: &'static [Part],
}

/// The forms of the lines that a command prints.
#[derive(Clone, Copy, Debug)]
pub struct CommandForms {
    /// The command's name.
    pub command: &'static str,
    /// The forms, of which the first that fits is taken.
    pub forms: &'static [Form],
}
