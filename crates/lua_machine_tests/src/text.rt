//! A text of the input, with its title and its limits.

use std::alloc::{AllocError, Global};
use zc_budget::{GREATEST_BYTES, GREATEST_INSTRUCTIONS};

/// A text, its title, and the most instructions and bytes that it may use.
#[derive(Drop)]
pub(crate) struct Text {
    pub(crate) title: Vec<u8>,
    pub(crate) instructions: u64,
    pub(crate) memory: u64,
    pub(crate) bytes: Vec<u8>,
    lines: usize,
}

/// The limit that a word tells; the greatest, where it tells none.
fn limit_of(word: Option<&str>, greatest: u64) -> u64 {
    match word {
        None => greatest,
        Some(digits) => match digits.parse::<u64>() {
            Ok(number) => number,
            Err(_) => greatest,
        },
    }
}

/// What stands behind the words `-- next`.
fn title_of(line: &[u8]) -> &[u8] {
    &line[8.min(line.len())..]
}

impl Text {
    /// No text yet, under the greatest limits.
    pub(crate) fn new(alloc: Global) -> Text {
        Text {
            title: Vec::new(alloc),
            instructions: GREATEST_INSTRUCTIONS,
            memory: GREATEST_BYTES,
            bytes: Vec::new(alloc),
            lines: 0,
        }
    }

    /// The text of this first line.
    pub(crate) fn begun(alloc: Global, line: &str) -> Result<Text, AllocError> {
        let mut text = Text::new(alloc);
        let mut words = line.split(' ').skip(2);
        text.instructions = limit_of(words.next(), GREATEST_INSTRUCTIONS);
        text.memory = limit_of(words.next(), GREATEST_BYTES);
        text.title.extend_from_slice(title_of(line.as_bytes()))?;
        Ok(text)
    }

    /// One line more.
    pub(crate) fn push_line(&mut self, line: &str) -> Result<(), AllocError> {
        if self.lines > 0 {
            self.bytes.push(b'\n')?;
        }
        self.lines = self.lines.saturating_add(1);
        self.bytes.extend_from_slice(line.as_bytes())?;
        Ok(())
    }
}
