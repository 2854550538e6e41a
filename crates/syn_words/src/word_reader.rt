//! Reading the words behind a command's name by what may stand there.

ghost use Rattle.std.specs.Prelude.{◌≡◌};
ghost use Rattle.syn_words.specs.Flags.{with_flags};
ghost use Rattle.syn_words.specs.Forms.{after_word, all_given, at_end, ends_with_options, given_by, is_option, lacks_second, nothing_given, number_behind, takes_words, with_first, with_further, with_options};

use crate::ScriptFault;
use crate::flags::{Flags, are_flags, letters_of, with_flags};
use crate::formats::{Format, format_of};
use crate::forms::{Form, NumberRange, Numbered, Operands};
use crate::names::WordText;
use crate::numbers::number_at;
use crate::table::{Keyword, entry_of};
use crate::words::{CommandWords, Word, next_word};

/// What was given behind a command's name.
#[derive(Drop)]
pub struct Given<'a> {
    /// Whether each option without a number was given.
    pub flags: Flags,
    /// The number of the first option with one, where it was given.
    pub number: Option<u64>,
    /// The number of the second such option, where it was given.
    pub further: Option<u64>,
    /// The file's name, empty where none is expected.
    pub name: WordText<'a>,
    /// The format that the name's end tells, BLIF where none is expected.
    pub format: Format,
    /// The second file's name, where one was given.
    pub other: Option<WordText<'a>>,
    /// The numbers, 0 where none are expected.
    pub numbers: (u64, u64),
    /// The words, none where none are expected but those above.
    pub words: CommandWords<'a>,
    /// What the name of a command says, where one was given.
    pub topic: Option<Keyword>,
}

/// What the next word may be.
#[derive(Clone, Copy, Debug, PartialEq, Eq)]
pub enum Awaits {
    /// An option, or the first word that is none.
    Options,
    /// The number of the first option with one.
    OptionNumber(NumberRange),
    /// The number of the second such option.
    FurtherNumber(NumberRange),
    /// The second of two numbers.
    SecondNumber(NumberRange),
    /// A second file's name, or no word.
    SecondName,
    /// No word.
    Nothing,
}

/// How far the words behind a name were read.
#[derive(Drop)]
pub struct Progress<'a> {
    pub given: Given<'a>,
    pub awaits: Awaits,
}

// Whether any words may stand.
fn takes_words(operands: Operands) -> bool
    ensures { result ≡ takes_words operands }
{
    matches!(operands, Operands::Words)
}

// Whether options alone may stand.
fn ends_with_options(operands: Operands) -> bool
    ensures { result ≡ ends_with_options operands }
{
    matches!(operands, Operands::Nothing | Operands::Command)
}

// Whether a word is an option: a hyphen and its letter.
fn is_option(letter: u8, text: &[u8]) -> bool
    ensures { result ≡ is_option letter text.now }
{
    [b'-', letter].as_slice() == text
}

// The range of the number behind a word, where it is this option with a number.
fn number_behind(numbered: Option<Numbered>, text: &[u8]) -> Option<NumberRange>
    ensures { result ≡ number_behind numbered text.now }
{
    match numbered {
        Some(numbered) if is_option(numbered.letter, text) => Some(numbered.range),
        _ => None,
    }
}

impl<'a> Given<'a> {
    // Nothing yet.
    fn nothing() -> Given<'a>
        ensures { result ≡ nothing_given }
    {
        Given {
            flags: (false, false, false),
            number: None,
            further: None,
            name: WordText::empty(),
            format: Format::Blif,
            other: None,
            numbers: (0, 0),
            words: CommandWords::of(&[], 0),
            topic: None,
        }
    }

    // All words, whatever they are.
    fn all(words: CommandWords<'a>) -> Given<'a>
        ensures { result ≡ all_given words.entry }
    {
        let mut given = Given::nothing();
        given.words = words;
        given
    }

    // Behind this the next word is awaited.
    fn before(self, awaits: Awaits) -> Progress<'a>
        ensures { result ≡ record { given = self.entry; awaits = awaits } }
    {
        Progress {
            given: self,
            awaits,
        }
    }

    // With the first word that is no option.
    fn with_first(mut self, operands: Operands, word: Word<'a>) -> Result<Progress<'a>, ScriptFault>
        ensures { result ≡ with_first operands self.entry word.entry }
    {
        match operands {
            Operands::Nothing | Operands::Words => Err(ScriptFault::ExtraWord(word.at)),
            Operands::Name => {
                self.name = word.text;
                Ok(self.before(Awaits::Nothing))
            }
            Operands::OneOrTwoNames => {
                self.name = word.text;
                Ok(self.before(Awaits::SecondName))
            }
            Operands::NameWithFormat => {
                let Some(format) = format_of(word.text.as_slice()) else {
                    return Err(ScriptFault::UnknownEnding(word.at));
                };
                self.name = word.text;
                self.format = format;
                Ok(self.before(Awaits::Nothing))
            }
            Operands::Command => {
                let Some((_, keyword)) = entry_of(word.text.as_slice()) else {
                    return Err(ScriptFault::UnknownCommand(word.at));
                };
                self.topic = Some(keyword);
                Ok(self.before(Awaits::Nothing))
            }
            Operands::TwoNumbers(first, second) => {
                self.numbers = (number_at(first, &word)?, 0);
                Ok(self.before(Awaits::SecondNumber(second)))
            }
        }
    }

    // With a word of options without a number, by which these are given, unless one of them may not be given.
    fn with_options(
        mut self,
        flags: Option<Flags>,
        word: Word<'a>,
    ) -> Result<Progress<'a>, ScriptFault>
        ensures { result ≡ with_options flags self.entry word.entry }
    {
        let Some(flags) = flags else {
            return Err(ScriptFault::ExtraWord(word.at));
        };
        self.flags = flags;
        Ok(self.before(Awaits::Options))
    }

    // With the second option with a number, or with the first word that is no option.
    fn with_further(self, form: Form, word: Word<'a>) -> Result<Progress<'a>, ScriptFault>
        ensures { result ≡ with_further form self.entry word.entry }
    {
        match number_behind(form.numbered.1, word.text.as_slice()) {
            None => self.with_first(form.operands, word),
            Some(_) if self.further.is_some() => Err(ScriptFault::ExtraWord(word.at)),
            Some(range) => Ok(self.before(Awaits::FurtherNumber(range))),
        }
    }

    // With an option, or with the first word that is none.
    fn with_option(self, form: Form, word: Word<'a>) -> Result<Progress<'a>, ScriptFault>
        ensures { result ≡ after_word form Awaits.Options self.entry word.entry }
    {
        let letters = letters_of(word.text.as_slice());
        if are_flags(&form, letters) {
            let flags = with_flags(&form, self.flags, letters);
            return self.with_options(flags, word);
        }
        match number_behind(form.numbered.0, word.text.as_slice()) {
            None => self.with_further(form, word),
            Some(_) if self.number.is_some() => Err(ScriptFault::ExtraWord(word.at)),
            Some(range) => Ok(self.before(Awaits::OptionNumber(range))),
        }
    }

    // Whether the second option without a number is missing: that with a number stands only beside it.
    fn lacks_second(&self, form: &Form) -> bool
        ensures { result ≡ lacks_second form.now self.now }
    {
        form.apart && self.further.is_some() && !self.flags.1
    }

    // What was given, where no word is left.
    fn at_end(self, form: Form, end: u32, awaits: Awaits) -> Result<Given<'a>, ScriptFault>
        ensures { result ≡ at_end form end awaits self.entry }
    {
        let complete = match awaits {
            Awaits::Nothing | Awaits::SecondName => true,
            Awaits::Options => { !self.lacks_second(&form) && ends_with_options(form.operands) }
            Awaits::OptionNumber(_) | Awaits::FurtherNumber(_) | Awaits::SecondNumber(_) => false,
        };
        if complete {
            Ok(self)
        } else {
            Err(ScriptFault::MissingWord(end))
        }
    }
}

impl<'a> Progress<'a> {
    // One word further.
    fn after_word(self, form: Form, word: Word<'a>) -> Result<Progress<'a>, ScriptFault>
        ensures { result ≡ after_word form self.entry.awaits self.entry.given word.entry }
    {
        let Progress { mut given, awaits } = self;
        match awaits {
            Awaits::Options => given.with_option(form, word),
            Awaits::OptionNumber(range) => {
                given.number = Some(number_at(range, &word)?);
                Ok(given.before(Awaits::Options))
            }
            Awaits::FurtherNumber(range) => {
                given.further = Some(number_at(range, &word)?);
                Ok(given.before(Awaits::Options))
            }
            Awaits::SecondNumber(range) => {
                given.numbers = (given.numbers.0, number_at(range, &word)?);
                Ok(given.before(Awaits::Nothing))
            }
            Awaits::SecondName => {
                given.other = Some(word.text);
                Ok(given.before(Awaits::Nothing))
            }
            Awaits::Nothing => Err(ScriptFault::ExtraWord(word.at)),
        }
    }
}

/// What the words behind a name give by a form, or their first fault.
pub fn given_by<'a>(
    form: Form,
    mut further: CommandWords<'a>,
    end: u32,
) -> Result<Given<'a>, ScriptFault>
    ensures { result ≡ given_by form end further.entry }
{
    if takes_words(form.operands) {
        return Ok(Given::all(further));
    }
    let mut progress = Given::nothing().before(Awaits::Options);
    while let Some(word) = next_word(&mut further) {
        progress = progress.after_word(form, word)?;
    }
    let Progress { given, awaits } = progress;
    given.at_end(form, end, awaits)
}
