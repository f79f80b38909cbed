//! Several CLVM words.
ghost use Rattle.std.specs.Prelude.{◌≡◌, ◌≤◌, length, map, sum_by, IfOk, IsTrue};
ghost use Rattle.clvm_input.specs.Words.{are_few, words_of};

use crate::word::{Word, read_word};
use clvm_spec::limits::MOST_SPELLED;
use clvm_tree::OutOfMemory;
use std::alloc::Global;
use std::marker::Model;

/// CLVM words, which stand for at most 67,108,864 bytes together.
#[derive(Debug, Drop)]
pub struct Words {
    items: Vec<Word>,
}

impl Model for Words {
    ghost use Rattle.std.specs.Prelude.{ℕ, ◌≤◌, List, length, sum_by, IsTrue};
    ghost use Rattle.clvm_input.specs.Words.{are_few};

    ghost Value = { List (List ℕ) };

    ghost view = { λ words. words.items.items };

    ghost invariant = { λ words.
        (length words.items.items ≤ sum_by length words.items.items) × IsTrue (are_few words.items.items) };
}

impl Words {
    /// The words, lent. Each stands for a byte at least.
    pub fn as_slice(&self) -> &[Word]
        ensures value { result.now ≡ self.now }
        ensures few { length self.now ≤ sum_by length self.now }
        ensures short { IsTrue (are_few self.now) }
    {
        self.items.as_slice()
    }
}

/// The CLVM words that texts are, exactly where each is one and they stand for at most 67,108,864 bytes together.
pub fn read_words(alloc: Global, texts: &[&str]) -> Result<Option<Words>, OutOfMemory>
    ensures { IfOk result (λ words. words ≡ words_of (map (λ text. text.now) texts.now)) }
{
    let mut items = Vec::new(alloc);
    let mut room = MOST_SPELLED;
    for text in texts {
        let Some(word) = read_word(alloc, text.as_bytes())? else {
            return Ok(None);
        };
        let count = word.as_slice().len();
        if count > room {
            return Ok(None);
        }
        room -= count;
        items.push(word)?;
    }
    Ok(Some(Words { items }))
}
