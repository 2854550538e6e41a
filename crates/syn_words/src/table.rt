//! The table of commands: a row a name, with what may stand behind it and its keyword.

ghost use Rattle.std.specs.Prelude.{◌≡◌, map};
ghost use Rattle.syn_words.specs.Table.{entry_in, table};

use crate::forms::{Form, NumberRange, Numbered, Operands};
use syn_workers::MAX_WORKERS;

/// What the names of commands say, long and short ones together.
#[derive(Clone, Copy, Debug, PartialEq, Eq)]
pub enum Keyword {
    ReadBlif,
    WriteBlif,
    PrintStats,
    PrintLevels,
    Compare,
    Time,
    Echo,
    Help,
    Quit,
    Source,
    ReadLuts,
    Dress,
    Strash,
    Balance,
    Rewrite,
    RewriteZero,
    Refactor,
    RefactorZero,
    Map,
    Resyn2,
    Resyn2Levels,
    Generate,
    Sweep,
    Resubstitute,
    ResubstituteZero,
    MapByFlow,
    ResubstituteLuts,
    Merge,
    Replace,
    Resyn,
    ReadAiger,
    Read,
    Write,
    WriteAiger,
}

// A row of the table: a name, what may stand behind it, and its keyword.
type Row = (&'static [u8], Form, Keyword);

/// So many new ANDs in place of a node at most.
pub const MAX_GATES: u32 = 2;

/// So many conflicts at most.
pub const MAX_CONFLICTS: u32 = 1_000_000;

/// So many levels more at most.
pub const MAX_SLACK: u32 = 1_000_000;

/// So many LUTs of a window at most.
pub const MAX_WINDOW: u32 = 1_000;

/// So many generated tables at most.
pub const MAX_TABLES: u16 = 32_768;

// The option with a number of workers.
const WORKERS: Numbered = Numbered {
    letter: b'w',
    range: NumberRange {
        least: 1,
        most: MAX_WORKERS as u64,
    },
};

// The option with a number of inputs.
const INPUTS: Numbered = Numbered {
    letter: b'K',
    range: NumberRange { least: 2, most: 8 },
};

// The option with a number of conflicts.
const CONFLICTS: Numbered = Numbered {
    letter: b'C',
    range: NumberRange {
        least: 0,
        most: MAX_CONFLICTS as u64,
    },
};

// The option with a number of ANDs.
const GATES: Numbered = Numbered {
    letter: b'N',
    range: NumberRange {
        least: 1,
        most: MAX_GATES as u64,
    },
};

// The option with a number of levels.
const SLACK: Numbered = Numbered {
    letter: b'D',
    range: NumberRange {
        least: 0,
        most: MAX_SLACK as u64,
    },
};

// The option with a number of LUTs of a window.
const WINDOW: Numbered = Numbered {
    letter: b'w',
    range: NumberRange {
        least: 1,
        most: MAX_WINDOW as u64,
    },
};

// A seed.
const SEEDS: NumberRange = NumberRange {
    least: 0,
    most: u64::MAX,
};

// A number of generated tables.
const SIZES: NumberRange = NumberRange {
    least: 1,
    most: MAX_TABLES as u64,
};

// No word.
const NOTHING: Form = Form {
    flags: (None, None, None),
    numbered: (None, None),
    apart: false,
    operands: Operands::Nothing,
};

// Any words.
const WORDS: Form = Form {
    flags: (None, None, None),
    numbered: (None, None),
    apart: false,
    operands: Operands::Words,
};

// A command's name, or no word.
const COMMAND: Form = Form {
    flags: (None, None, None),
    numbered: (None, None),
    apart: false,
    operands: Operands::Command,
};

// A file's name.
const NAME: Form = Form {
    flags: (None, None, None),
    numbered: (None, None),
    apart: false,
    operands: Operands::Name,
};

// A file's name with the ending of a format.
const NAME_WITH_FORMAT: Form = Form {
    flags: (None, None, None),
    numbered: (None, None),
    apart: false,
    operands: Operands::NameWithFormat,
};

// `-p`, and then a file's name.
const PROPERTIES_AND_NAME: Form = Form {
    flags: (Some(b'p'), None, None),
    numbered: (None, None),
    apart: false,
    operands: Operands::Name,
};

// A number of conflicts, and then a file's name, or two.
const CONFLICTS_AND_NAMES: Form = Form {
    flags: (None, None, None),
    numbered: (Some(CONFLICTS), None),
    apart: false,
    operands: Operands::OneOrTwoNames,
};

// `-a`, `-t`, and then a file's name.
const AIGER_NAME: Form = Form {
    flags: (Some(b'a'), Some(b't'), None),
    numbered: (None, None),
    apart: false,
    operands: Operands::Name,
};

// `-z`, `-L`, `-l`, which says what is so without it, and a number of workers.
const PASS: Form = Form {
    flags: (Some(b'z'), Some(b'L'), Some(b'l')),
    numbered: (Some(WORKERS), None),
    apart: false,
    operands: Operands::Nothing,
};

// The same without `-z`, which is set already.
const ZERO_PASS: Form = Form {
    flags: (None, Some(b'L'), Some(b'l')),
    numbered: (Some(WORKERS), None),
    apart: false,
    operands: Operands::Nothing,
};

// `-s`.
const SHARING: Form = Form {
    flags: (Some(b's'), None, None),
    numbered: (None, None),
    apart: false,
    operands: Operands::Nothing,
};

// `-a`, or `-A` and perhaps a number of levels; and a number of inputs.
const MAPPING: Form = Form {
    flags: (Some(b'a'), Some(b'A'), None),
    numbered: (Some(INPUTS), Some(SLACK)),
    apart: true,
    operands: Operands::Nothing,
};

// A number of inputs.
const ONLY_INPUTS: Form = Form {
    flags: (None, None, None),
    numbered: (Some(INPUTS), None),
    apart: false,
    operands: Operands::Nothing,
};

// A number of LUTs of a window.
const ONLY_WINDOW: Form = Form {
    flags: (None, None, None),
    numbered: (Some(WINDOW), None),
    apart: false,
    operands: Operands::Nothing,
};

// `-L`, and a number of conflicts.
const SEARCH: Form = Form {
    flags: (None, Some(b'L'), None),
    numbered: (Some(CONFLICTS), None),
    apart: false,
    operands: Operands::Nothing,
};

// `-L`, a number of conflicts, and a number of ANDs.
const GATE_SEARCH: Form = Form {
    flags: (None, Some(b'L'), None),
    numbered: (Some(CONFLICTS), Some(GATES)),
    apart: false,
    operands: Operands::Nothing,
};

// A seed, and a number of generated tables.
const SEED_AND_SIZE: Form = Form {
    flags: (None, None, None),
    numbered: (None, None),
    apart: false,
    operands: Operands::TwoNumbers(SEEDS, SIZES),
};

// The names, long and short.
const TABLE: [Row; 44] = [
    (b"read_blif", NAME, Keyword::ReadBlif),
    (b"write_blif", NAME, Keyword::WriteBlif),
    (b"print_stats", NOTHING, Keyword::PrintStats),
    (b"ps", NOTHING, Keyword::PrintStats),
    (b"print_level", NOTHING, Keyword::PrintLevels),
    (b"cec", CONFLICTS_AND_NAMES, Keyword::Compare),
    (b"time", NOTHING, Keyword::Time),
    (b"echo", WORDS, Keyword::Echo),
    (b"help", COMMAND, Keyword::Help),
    (b"quit", NOTHING, Keyword::Quit),
    (b"q", NOTHING, Keyword::Quit),
    (b"exit", NOTHING, Keyword::Quit),
    (b"source", NAME, Keyword::Source),
    (b"read_lut", NAME, Keyword::ReadLuts),
    (b"dress", NAME, Keyword::Dress),
    (b"strash", NOTHING, Keyword::Strash),
    (b"st", NOTHING, Keyword::Strash),
    (b"balance", SHARING, Keyword::Balance),
    (b"b", SHARING, Keyword::Balance),
    (b"rewrite", PASS, Keyword::Rewrite),
    (b"rw", PASS, Keyword::Rewrite),
    (b"rwz", ZERO_PASS, Keyword::RewriteZero),
    (b"refactor", PASS, Keyword::Refactor),
    (b"rf", PASS, Keyword::Refactor),
    (b"rfz", ZERO_PASS, Keyword::RefactorZero),
    (b"if", MAPPING, Keyword::Map),
    (b"resyn2", NOTHING, Keyword::Resyn2),
    (b"resyn2l", NOTHING, Keyword::Resyn2Levels),
    (b"gen", SEED_AND_SIZE, Keyword::Generate),
    (b"scl", NOTHING, Keyword::Sweep),
    (b"resub", PASS, Keyword::Resubstitute),
    (b"rs", PASS, Keyword::Resubstitute),
    (b"rsz", ZERO_PASS, Keyword::ResubstituteZero),
    (b"flowmap", ONLY_INPUTS, Keyword::MapByFlow),
    (b"mfs", ONLY_WINDOW, Keyword::ResubstituteLuts),
    (b"fraig", SEARCH, Keyword::Merge),
    (b"sresub", GATE_SEARCH, Keyword::Replace),
    (b"srs", GATE_SEARCH, Keyword::Replace),
    (b"resyn", NOTHING, Keyword::Resyn),
    (b"compress2", NOTHING, Keyword::Resyn2),
    (b"read_aiger", PROPERTIES_AND_NAME, Keyword::ReadAiger),
    (b"write_aiger", AIGER_NAME, Keyword::WriteAiger),
    (b"read", NAME_WITH_FORMAT, Keyword::Read),
    (b"write", NAME_WITH_FORMAT, Keyword::Write),
];

// What the first row of a name has, if there is one.
fn entry_in(rows: &[Row], word: &[u8]) -> Option<(Form, Keyword)>
    ensures { result ≡ entry_in (map (λ r. (r.0.now, r.1, r.2)) rows.now) word.now }
{
    for (name, form, keyword) in rows {
        if *name == word {
            return Some((*form, *keyword));
        }
    }
    None
}

/// What may stand behind a name, and its keyword, where it is a command's name.
pub fn entry_of(word: &[u8]) -> Option<(Form, Keyword)>
    ensures { result ≡ entry_in table word.now }
{
    entry_in(TABLE.as_slice(), word)
}
