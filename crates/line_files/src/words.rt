//! The words of a line.

ghost use Rattle.std.specs.Prelude.{◌≡◌, ◌↔◌, ◌∷◌, [], IsTrue, MatchOption};
ghost use Rattle.line_files.specs.ClerkFile.{words_of};

use crate::text_lines::split_at_byte;
use std::marker::Model;

/// The words of a line that are still to be read, which contracts see as their list. The line is cut at each space, so
/// that two spaces side by side, or one at an end of the line, leave an empty word.
///
/// ```
/// let mut words = Words::new(b"merge 3 4"); // words.next() gives merge, 3 and 4, and then None
/// ```
#[derive(Drop)]
pub struct Words<'a> {
    text: &'a [u8],
    is_read: bool,
}

impl<'a> Model for Words<'a> {
    ghost use Rattle.std.specs.Prelude.{ℕ, List, [], if◌then◌else◌};
    ghost use Rattle.line_files.specs.ClerkFile.{words_of};

    ghost Value = { List (List ℕ) };

    ghost view = { λ words. if words.is_read then [] else words_of words.text.now };
}

impl<'a> Words<'a> {
    /// All words of a line.
    pub fn new(line: &'a [u8]) -> Words<'a>
        ensures { result ≡ words_of line.now }
    {
        Words {
            text: line,
            is_read: false,
        }
    }

    /// The same words, to be read on their own. It is no `Clone`, which could be refused memory.
    pub(crate) fn copy(&self) -> Words<'a>
        ensures { result ≡ self.now }
    {
        Words {
            text: self.text,
            is_read: self.is_read,
        }
    }

    /// Whether none is left.
    pub fn is_empty(&self) -> bool
        ensures { IsTrue result ↔ (self.now ≡ []) }
    {
        self.is_read
    }

    /// The next word; `None` where none is left.
    pub fn next(&mut self) -> Option<&'a [u8]>
        ensures { MatchOption result ((self.old ≡ []) × (self.new ≡ []))
            (λ word. self.old ≡ word.now ∷ self.new) }
    {
        if self.is_read {
            return None;
        }
        match split_at_byte(self.text, b' ') {
            Some((word, behind)) => {
                self.text = behind;
                Some(word)
            }
            None => {
                self.is_read = true;
                Some(self.text)
            }
        }
    }
}
