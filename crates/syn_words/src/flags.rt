//! Options without a number, by their letters.

ghost use Rattle.std.specs.Prelude.{◌≡◌, ◌∷◌, option_map};
ghost use Rattle.std.specs.List.{list_all};
ghost use Rattle.syn_words.specs.Flags.{are_flags, is_flag, is_letter, letters_of, with_flag, with_flags};

use crate::forms::Form;

/// Which options without a number were given.
pub type Flags = (bool, bool, bool);

// Whether a byte is this letter, where there is one.
fn is_letter(letter: Option<u8>, byte: u8) -> bool
    ensures { result ≡ is_letter letter byte }
{
    match letter {
        Some(letter) => letter == byte,
        None => false,
    }
}

// Whether a byte is the letter of an option without a number.
fn is_flag(form: &Form, byte: u8) -> bool
    ensures { result ≡ is_flag form.now byte }
{
    is_letter(form.flags.0, byte) || is_letter(form.flags.1, byte) || is_letter(form.flags.2, byte)
}

// Whether each byte is such a letter.
fn all_flags(form: &Form, letters: &[u8]) -> bool
    ensures { result ≡ list_all (is_flag form.now) letters.now }
{
    for letter in letters {
        if !is_flag(form, *letter) {
            return false;
        }
    }
    true
}

/// The bytes behind a word's hyphen; no byte, where it doesn't begin with one.
pub fn letters_of(text: &[u8]) -> &[u8]
    ensures { result.now ≡ letters_of text.now }
{
    match text.split_first() {
        Some((first, letters)) if *first == b'-' => letters,
        _ => &[],
    }
}

/// Whether these are one or more letters of options without a number, and nothing else.
pub fn are_flags(form: &Form, letters: &[u8]) -> bool
    ensures { result ≡ are_flags form.now letters.now }
{
    !letters.is_empty() && all_flags(form, letters)
}

// The options that are given with one more, by its letter; none, where it was given before, or may not stand beside them.
fn with_flag(form: &Form, flags: Flags, letter: u8) -> Option<Flags>
    ensures { result ≡ with_flag form.now flags letter }
{
    let (first, second, third) = flags;
    let (barred, flags) = if is_letter(form.flags.0, letter) {
        (first || (form.apart && second), (true, second, third))
    } else if is_letter(form.flags.1, letter) {
        (
            second || (form.apart && (first || third)),
            (first, true, third),
        )
    } else {
        (third || (form.apart && second), (first, second, true))
    };
    if barred { None } else { Some(flags) }
}

/// The options that are given with those of these letters; none, where one is given twice or may not stand beside the others.
pub fn with_flags(form: &Form, flags: Flags, letters: &[u8]) -> Option<Flags>
    ensures { result ≡ with_flags form.now flags letters.now }
{
    let mut given = flags;
    for letter in letters {
        given = with_flag(form, given, *letter)?;
    }
    Some(given)
}
