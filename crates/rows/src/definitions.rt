//! Names for texts that come again.

use std::alloc::{AllocError, Global};

/// The texts that `$NAME` stands for in the lines that follow.
#[derive(Drop)]
pub(crate) struct Definitions {
    alloc: Global,
    texts: Vec<(String, String)>,
}

impl Definitions {
    /// No names.
    pub(crate) fn new(alloc: Global) -> Definitions {
        Definitions {
            alloc,
            texts: Vec::new(alloc),
        }
    }

    /// Lets a name stand for a text. The first text that a name was given counts.
    pub(crate) fn add(&mut self, name: &str, text: &str) -> Result<(), AllocError> {
        let name = name.to_string(self.alloc)?;
        let text = text.to_string(self.alloc)?;
        Ok(self.texts.push((name, text))?)
    }

    /// The words of a line, one space between two, each name as its text. A name without a text
    /// stays as it is.
    pub(crate) fn expand(&self, line: &str) -> Result<String, AllocError> {
        let mut expanded = String::new(self.alloc);
        for word in line.split_whitespace() {
            if !expanded.is_empty() {
                expanded.push(' ')?;
            }
            expanded.push_str(self.text_of(word))?;
        }
        Ok(expanded)
    }

    // What a word stands for.
    fn text_of<'a>(&'a self, word: &'a str) -> &'a str {
        let Some(name) = word.strip_prefix('$') else {
            return word;
        };
        for (known, text) in self.texts.as_slice() {
            if known.as_str() == name {
                return text.as_str();
            }
        }
        word
    }
}
