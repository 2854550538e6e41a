//! The commands of a file, as a script of the same length.

ghost use Rattle.std.specs.Prelude.{◌≡◌, ◌<◌, length, IfOk};
ghost use Rattle.syn_words.specs.Quotes.{behind_gap, ending, held, hidden, is_blank, meant, next_place, opening, parts, plain, script_of, shown, unless};

use std::alloc::{AllocError, Global};

/// Where a byte stands in the commands of a file.
#[derive(Clone, Copy, Debug, PartialEq, Eq)]
pub enum Place {
    /// Where a word could begin.
    Between,
    /// Behind the first byte of a word.
    Word,
    /// In a word in quotes.
    Quotes,
    /// In a comment.
    Comment,
}

// By so much a byte that is held in quotes is above itself.
const HELD: u8 = 128;

fn is_blank(byte: u8) -> bool
    ensures { result ≡ is_blank byte }
{
    byte == b' ' || byte == b'\t' || byte == b'\r'
}

fn parts(byte: u8) -> bool
    ensures { result ≡ parts byte }
{
    is_blank(byte) || byte == b'\n' || byte == b';'
}

// Where the byte behind this one stands, where a word could begin with this one.
fn behind_gap(byte: u8) -> Place
    ensures { result ≡ behind_gap byte }
{
    if byte == b'#' {
        Place::Comment
    } else if byte == b'"' {
        Place::Quotes
    } else if parts(byte) {
        Place::Between
    } else {
        Place::Word
    }
}

// This place, or that between words where it ends.
fn unless(ends: bool, place: Place) -> Place
    ensures { result ≡ unless ends place }
{
    if ends { Place::Between } else { place }
}

// Where the byte behind this one stands.
fn next_place(place: Place, byte: u8) -> Place
    ensures { result ≡ next_place place byte }
{
    match place {
        Place::Between => behind_gap(byte),
        Place::Word => unless(parts(byte), place),
        Place::Quotes => unless(byte == b'"', place),
        Place::Comment => unless(byte == b'\n', place),
    }
}

// A byte as it stands in a script.
fn plain(byte: u8) -> u8
    ensures value { result ≡ plain byte }
    ensures low { result < 128 }
{
    byte.min(127)
}

// The same of one that ends a command where it is a line feed.
fn ending(byte: u8) -> u8
    ensures { result ≡ ending byte }
{
    if byte == b'\n' { b';' } else { plain(byte) }
}

// The same of one in quotes.
fn held(byte: u8) -> u8
    ensures { result ≡ held byte }
{
    if byte == b'"' {
        b' '
    } else if is_blank(byte) || byte == b';' {
        plain(byte) + HELD
    } else {
        plain(byte)
    }
}

// The same of one with which a word could begin: what begins a word in quotes or a comment is a blank.
fn opening(byte: u8) -> u8
    ensures { result ≡ opening byte }
{
    if byte == b'"' || byte == b'#' {
        b' '
    } else {
        ending(byte)
    }
}

// The same of one in a comment: all but its end are blanks.
fn hidden(byte: u8) -> u8
    ensures { result ≡ hidden byte }
{
    if byte == b'\n' { b';' } else { b' ' }
}

// What a byte becomes by where it stands.
fn shown(place: Place, byte: u8) -> u8
    ensures { result ≡ shown place byte }
{
    match place {
        Place::Between => opening(byte),
        Place::Word => ending(byte),
        Place::Quotes => held(byte),
        Place::Comment => hidden(byte),
    }
}

/// The script of the commands of a file.
pub fn script_of(alloc: Global, text: &[u8]) -> Result<Vec<u8>, AllocError>
    ensures script { IfOk result (λ script. script.items ≡ script_of text.now) }
    ensures length { IfOk result (λ script. length script.items ≡ length text.now) }
{
    let mut script = Vec::new(alloc);
    let mut place = Place::Between;
    for byte in text {
        script.push(shown(place, *byte))?;
        place = next_place(place, *byte);
    }
    Ok(script)
}

/// A byte of a word as it is meant.
pub fn meant(byte: u8) -> u8
    ensures value { result ≡ meant byte }
    ensures low { result < 128 }
{
    if byte > 127 { byte - HELD } else { byte }
}
