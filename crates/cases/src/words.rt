// A line of a case, in words and numbers.
use std::alloc::{AllocError, Global};

// A word, with the numbers after it.
#[derive(Drop)]
pub struct Group<'a> {
    pub word: &'a str,
    pub numbers: Vec<usize>,
}

// A line, and its groups in order.
#[derive(Drop)]
pub struct Line<'a> {
    pub text: &'a str,
    pub groups: Vec<Group<'a>>,
}

// The number that a word is: decimal, or hexadecimal after `0x`.
fn number(word: &str) -> Option<usize> {
    match word.strip_prefix("0x") {
        Some(digits) => usize::from_str_radix(digits, 16).ok(),
        None => word.parse().ok(),
    }
}

impl Line<'_> {
    pub fn new(heap: Global, text: &str) -> Result<Line<'_>, AllocError> {
        let mut groups: Vec<Group<'_>> = Vec::new(heap);
        for word in text.split(' ') {
            match (number(word), groups.last_mut()) {
                (Some(number), Some(group)) => group.numbers.push(number)?,
                _ => groups.push(Group {
                    word,
                    numbers: Vec::new(heap),
                })?,
            }
        }
        Ok(Line { text, groups })
    }

    // Is it there for the reader alone?
    pub fn is_title(&self) -> bool {
        match self.groups.as_slice() {
            [first, ..] => first.word == "#",
            [] => false,
        }
    }
}
