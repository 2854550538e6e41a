//! Operands of calls.

use std::alloc::{AllocError, Global};

/// Lists of numbers.
#[derive(Drop)]
pub struct Operands {
    lists: Vec<Vec<u128>>,
}

// The number that a word spells; the greatest where it spells none.
fn number(word: &str) -> u128 {
    let found = match word.strip_prefix("0x") {
        Some(digits) => u128::from_str_radix(digits, 16),
        None => word.parse::<u128>(),
    };
    found.unwrap_or(u128::MAX)
}

// The numbers of the words of a text.
fn numbers(alloc: Global, text: &str) -> Result<Vec<u128>, AllocError> {
    let mut numbers = Vec::new(alloc);
    for word in text.split_whitespace() {
        numbers.push(number(word))?;
    }
    Ok(numbers)
}

impl Operands {
    /// The lists of a text, which `/` parts.
    pub fn of(alloc: Global, text: &str) -> Result<Operands, AllocError> {
        let mut lists = Vec::new(alloc);
        for part in text.split('/') {
            lists.push(numbers(alloc, part)?)?;
        }
        Ok(Operands { lists })
    }

    /// How many lists there are.
    pub fn len(&self) -> usize {
        self.lists.len()
    }

    /// The list at a place; one of no numbers where there is none.
    pub fn list(&self, place: usize) -> &[u128] {
        match self.lists.get(place) {
            Some(list) => list.as_slice(),
            None => &[],
        }
    }

    /// The first number of the list at a place.
    pub fn number(&self, place: usize) -> u32 {
        small(self.list(place), 0)
    }

    /// The same as the values of a function of four variables.
    pub fn function(&self, place: usize) -> u16 {
        u16::try_from(self.number(place)).unwrap_or(u16::MAX)
    }

    /// The list at a place, of values: false where the number is 0.
    pub fn values(&self, alloc: Global, place: usize) -> Result<Vec<bool>, AllocError> {
        let mut values = Vec::new(alloc);
        for number in self.list(place) {
            values.push(*number > 0)?;
        }
        Ok(values)
    }
}

/// The number at a place of a list; the greatest where there is none, or a greater one.
pub fn small(list: &[u128], place: usize) -> u32 {
    match list.get(place) {
        Some(number) => u32::try_from(*number).unwrap_or(u32::MAX),
        None => u32::MAX,
    }
}

/// The same, at most 255.
pub fn byte(list: &[u128], place: usize) -> u8 {
    u8::try_from(small(list, place)).unwrap_or(u8::MAX)
}
