//! Formats of files, by the ends of their names.

ghost use Rattle.std.specs.Prelude.{◌≡◌};
ghost use Rattle.syn_words.specs.Formats.{format_of, network_file};

use crate::names::FileName;

/// A format of a file.
#[derive(Clone, Copy, Debug, PartialEq, Eq)]
pub enum Format {
    /// BLIF.
    Blif,
    /// AIGER, binary.
    Aiger,
    /// AIGER, ASCII.
    AsciiAiger,
}

/// The format that a name's end tells, `.blif`, `.aig` or `.aag`.
pub fn format_of(name: &[u8]) -> Option<Format>
    ensures { result ≡ format_of name.now }
{
    if name.ends_with(b".blif") {
        Some(Format::Blif)
    } else if name.ends_with(b".aig") {
        Some(Format::Aiger)
    } else if name.ends_with(b".aag") {
        Some(Format::AsciiAiger)
    } else {
        None
    }
}

/// A file that holds a network. Contracts see its name as bytes.
#[derive(Debug, Drop)]
pub enum NetworkFile {
    /// A BLIF file.
    Blif(FileName),
    /// An AIGER file, binary or ASCII.
    Aiger(FileName),
}

impl NetworkFile {
    /// The file of a name: AIGER where its end tells that, else BLIF.
    pub(crate) fn of(name: FileName) -> NetworkFile
        ensures { result ≡ network_file name }
    {
        match format_of(name.as_str().as_bytes()) {
            Some(Format::Aiger | Format::AsciiAiger) => NetworkFile::Aiger(name),
            Some(Format::Blif) | None => NetworkFile::Blif(name),
        }
    }
}
