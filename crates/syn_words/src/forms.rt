//! Forms: what may stand behind a command's name, as data.

/// A range of numbers, whose ends belong to it.
#[derive(Clone, Copy, Debug, PartialEq, Eq)]
pub struct NumberRange {
    pub least: u64,
    pub most: u64,
}

/// An option with a number: a hyphen and its letter, and then a number in the range.
#[derive(Clone, Copy, Debug, PartialEq, Eq)]
pub struct Numbered {
    pub letter: u8,
    pub range: NumberRange,
}

/// The words behind the options.
#[derive(Clone, Copy, Debug, PartialEq, Eq)]
pub enum Operands {
    Nothing,
    /// A file's name.
    Name,
    /// A file's name with the ending of a format.
    NameWithFormat,
    /// A file's name, or two.
    OneOrTwoNames,
    /// Two numbers, each in its range.
    TwoNumbers(NumberRange, NumberRange),
    /// A command's name, or no word.
    Command,
    /// Any words, those that look like options among them.
    Words,
}

/// What may stand behind a command's name: options in any order, each once at most, and then words.
#[derive(Clone, Copy, Debug, PartialEq, Eq)]
pub struct Form {
    /// The letters of the options without a number. Those given may stand behind one hyphen.
    pub flags: (Option<u8>, Option<u8>, Option<u8>),
    /// The options with a number.
    pub numbered: (Option<Numbered>, Option<Numbered>),
    /// Whether the second option without a number stands apart: without the others, and the second with a number only beside it.
    pub apart: bool,
    pub operands: Operands,
}
