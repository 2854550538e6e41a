//! Files of LUTs.
//!
//! A line is a row: a number of inputs, an area, and perhaps delays, which are numbers with a
//! fraction or none. `#` begins a comment, and a line without words is nothing. Delays are read and
//! not used.

ghost use Rattle.std.specs.Prelude.{◌≡◌, ◌+◌, ◌*◌, ◌-◌, ◌<◌, ◌≤◌, ◌^◌, min, Err, IfErr, IfOk, IfSome, length, Ok, slice_index_or};
ghost use Rattle.syn_words.specs.Numbers.{number_after};
ghost use Rattle.syn_command_files.specs.Luts.{are_decimals, digit_at, fraction_digits, is_decimal, is_fraction, line_of, most_area, row_in, row_words, sizes_in, thousandths, three_digits, with_area};

use syn_lex::{WordBytes, Words, bytes_before, cut_piece};
use syn_words::{LutInputs, LutSizes, NumberRange, is_number, number_in};

// A row has at least so many inputs, and at most so many.
const ROW_INPUTS: NumberRange = NumberRange { least: 1, most: 8 };

// The greatest row of a file has at least so many.
const LEAST_MOST: u64 = 2;

// The areas where no row tells one.
const NO_AREAS: [u32; 8] = [u32::MAX; 8];

/// Why a text is no file of LUTs.
#[derive(Clone, Copy, Debug, PartialEq, Eq)]
pub enum LutFileFault {
    /// The line of this number, from 1, is the first that isn't a row of 1 to 8 inputs. Where each is
    /// one and none has 2 or more, it is the last line; 0 where there is none.
    Line(u32),
}

// The bytes of words in a row: all but blanks, tabs and CRs.
struct RowBytes;

impl WordBytes for RowBytes {
    ghost use Rattle.syn_command_files.specs.Luts.{is_row_byte};

    ghost holds = { is_row_byte };

    fn holds(byte: u8) -> bool {
        !(byte == b' ' || byte == b'\t' || byte == b'\r')
    }
}

// The words that are left of a row.
type RowWords<'a> = Words<'a, RowBytes>;

// Nothing, or a point and digits, where the first byte is a point if there is one.
fn is_fraction(text: &[u8]) -> bool
    ensures { result ≡ is_fraction text.now }
{
    if text.is_empty() {
        return true;
    }
    let (_, digits) = text.split_at(1);
    is_number(digits)
}

// A number with a fraction or none.
fn is_decimal(text: &[u8]) -> bool
    ensures { result ≡ is_decimal text.now }
{
    let (whole, fraction) = text.split_at(bytes_before(text, b'.'));
    is_number(whole) && is_fraction(fraction)
}

// All words are numbers.
fn are_decimals(words: RowWords<'_>) -> bool
    ensures { result ≡ are_decimals words.entry }
{
    for (_, word) in words {
        if !is_decimal(word) {
            return false;
        }
    }
    true
}

// The words of a line up to its comment.
fn row_words(line: &[u8]) -> RowWords<'_>
    requires { length line.now < 2 ^ 32 }
    ensures { result ≡ row_words line.now }
{
    let (row, _) = line.split_at(bytes_before(line, b'#'));
    Words::of(row, 0)
}

// The digits behind the point of a fraction, if any.
fn fraction_digits(fraction: &[u8]) -> &[u8]
    ensures { result.now ≡ fraction_digits fraction.now }
{
    match fraction.split_first() {
        None => &[],
        Some((_, digits)) => digits,
    }
}

// The digit at a place, a zero past the end.
fn digit_at(digits: &[u8], place: usize) -> u8
    ensures { result ≡ digit_at digits.now place }
{
    if place < digits.len() {
        digits[place]
    } else {
        b'0'
    }
}

// A number with one more digit behind it, at most the greatest area.
fn with_digit(number: u32, digit: u8) -> u32
    ensures { result ≡ min most_area (number * 10 + (digit - 48)) }
{
    let digit = digit.saturating_sub(b'0') as u32;
    number.saturating_mul(10).saturating_add(digit)
}

// The number that digits spell behind those of a number, at most the greatest area.
fn number_after(number: u32, digits: &[u8]) -> u32
    ensures { result ≡ min most_area (number_after number digits.now) }
{
    let mut after = number;
    for digit in digits {
        after = with_digit(after, *digit);
    }
    after
}

// How many thousandths a number with a fraction or none is, at most the greatest area.
fn thousandths(text: &[u8]) -> u32
    ensures { result ≡ thousandths text.now }
{
    let (whole, fraction) = text.split_at(bytes_before(text, b'.'));
    let digits = fraction_digits(fraction);
    let three = [
        digit_at(digits, 0),
        digit_at(digits, 1),
        digit_at(digits, 2),
    ];
    number_after(number_after(0, whole), &three)
}

// A row: how many inputs the LUT has, and its area in thousandths.
#[derive(Clone, Copy, Debug, PartialEq, Eq)]
pub(crate) struct LutRow {
    pub(crate) inputs: u64,
    pub(crate) area: u32,
}

// The row that words are; of 0 inputs where there is no word.
fn row_in(mut words: RowWords<'_>) -> Option<LutRow>
    ensures value { result ≡ row_in words.entry }
    ensures few { IfSome result (λ row. row.inputs ≤ 8) }
{
    let Some((_, inputs)) = words.take_word() else {
        return Some(LutRow { inputs: 0, area: 0 });
    };
    let (_, area) = words.take_word()?;
    if !is_decimal(area) || !are_decimals(words) {
        return None;
    }
    let inputs = number_in(ROW_INPUTS, inputs)?;
    let area = thousandths(area);
    Some(LutRow { inputs, area })
}

// Puts the area of a row, where it has an input.
fn put_area(areas: &mut [u32; 8], row: LutRow)
    requires { row.inputs ≤ 8 }
    ensures { areas.new ≡ with_area areas.old row }
{
    if row.inputs > 0 {
        areas[row.inputs as usize - 1] = row.area;
    }
}

/// The greatest number of inputs of the rows of a file of LUTs, and their areas.
///
/// Refuses with the number of the first line that isn't a row of 1 to 8 inputs; with that of the last
/// line where each is one and none has 2 or more.
pub fn luts_of(text: &[u8]) -> Result<LutSizes, LutFileFault>
    requires { length text.now < 2 ^ 32 }
    ensures sizes { IfOk result (λ sizes. sizes_in text.now ≡ Ok sizes) }
    ensures refused { IfErr result (λ fault. sizes_in text.now ≡ Err (line_of fault)) }
{
    let mut rest = text;
    let mut line: u32 = 0;
    let mut most = 0;
    let mut areas = NO_AREAS;
    while !rest.is_empty() {
        let (text, below) = cut_piece(rest, b'\n');
        line += 1;
        let Some(row) = row_in(row_words(text)) else {
            return Err(LutFileFault::Line(line));
        };
        most = most.max(row.inputs);
        put_area(&mut areas, row);
        rest = below;
    }
    if most < LEAST_MOST {
        return Err(LutFileFault::Line(line));
    }
    Ok(LutSizes {
        most: LutInputs::of(most),
        areas,
    })
}
