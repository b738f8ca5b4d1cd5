// Memory of words, kept for others.
ghost use Rattle.std.specs.Prelude.{◌≡◌, ◌≤◌};
ghost use Rattle.rt_words.specs.declared.spare.TheConstants.{MOST_WORDS};

use std::alloc::Global;
use std::marker::Model;

/// How many words' memory is kept at most.
pub const MOST_WORDS: usize = 16;

// And how many bytes of each.
const MOST_WORD_BYTES: usize = 64;

// The memory of a word grows to twice what it had at most, or to what it needs: that of the words of
// such a line needs no look.
const SHORT_LINE_BYTES: usize = MOST_WORD_BYTES / 2;

/// Memory that words have from line to line: once trimmed, that of sixteen words of 64 bytes at most, so
/// that the words of one short line after the other take no new memory. What is kept shows nowhere.
#[derive(Drop)]
pub struct Spare {
    // Words of former lines: their memory is what counts.
    pub(crate) words: Vec<String>,
    // Whether one of them may have more memory than is kept.
    are_long: bool,
}

impl Model for Spare {
    ghost use Rattle.std.specs.Prelude.{ℕ, length};

    // how many words' memory is kept
    ghost Value = { ℕ };

    ghost view = { λ s. length s.words.items };
}

impl Spare {
    /// None yet.
    pub fn new(alloc: Global) -> Spare
        ensures { result ≡ 0 }
    {
        Spare {
            words: Vec::new(alloc),
            are_long: false,
        }
    }

    // Notes that the words of a line come.
    pub(crate) fn note(&mut self, line: &str)
        ensures { self.new ≡ self.old }
    {
        if line.len() > SHORT_LINE_BYTES {
            self.are_long = true;
        }
    }

    /// Gives back what is more than that of sixteen words of 64 bytes.
    pub fn trim(&mut self, alloc: Global)
        ensures most { self.new ≤ MOST_WORDS }
        ensures fewer { self.new ≤ self.old }
        ensures kept { self.old ≤ MOST_WORDS → self.new ≡ self.old }
    {
        self.words.truncate(MOST_WORDS);
        if self.are_long {
            self.give_back_long(alloc);
        }
    }

    // Gives back the memory of long words.
    fn give_back_long(&mut self, alloc: Global)
        ensures { self.new ≡ self.old }
    {
        for i in 0..self.words.len() {
            if self.words[i].capacity() > MOST_WORD_BYTES {
                self.words[i] = String::new(alloc);
            }
        }
        self.are_long = false;
    }
}
