//! The words of all code points, in pages.

ghost use Rattle.std.specs.Prelude.{◌≡◌, ℕ, ◌+◌, ◌*◌, ◌<◌, vec_len, IfOk, OnOk, slice_index_or};
ghost use Rattle.unicode_tables.specs.FirstBytes.{AreFirstBytes};
ghost use Rattle.unicode_tables.specs.Word.{absent_word, word_with};
ghost use Rattle.unicode_tables.specs.Words.{word_in, IsWordTable};

use crate::blocks::BLOCKS;
use crate::first_bytes::FirstBytes;
use crate::page::BLOCK;
use crate::word::{Properties, Word};
use std::alloc::{AllocError, Global};

/// The words of all code points. The words of a block stand side by side, from its start on; blocks that follow each
/// other and have the same one word share them.
#[derive(Drop)]
pub(crate) struct Words {
    pub(crate) starts: Vec<usize>,
    pub(crate) pages: Vec<Word>,
    pub(crate) first_bytes: FirstBytes,
}

/// Makes a page that of a block: it gets the block's words in place of those that it has, and the first bytes get them too.
fn fill_page(
    page: &mut Vec<Word>,
    first_bytes: &mut FirstBytes,
    properties: &Properties,
    block: usize,
) -> Result<(), AllocError>
    requires block { block < 4352 }
    requires first_bytes { AreFirstBytes (word_with properties.now) (block * 256) first_bytes.old }
    ensures len { OnOk result (vec_len page.new ≡ 256) }
    ensures words { OnOk result ((k : ℕ) → k < 256
        → slice_index_or page.new.items k absent_word ≡ word_with properties.now (block * 256 + k)) }
    ensures first_bytes { OnOk result (AreFirstBytes (word_with properties.now) (block * 256 + 256) first_bytes.new) }
{
    let start = block * BLOCK;
    page.clear();
    if properties.are_even(block) {
        let word = properties.word(start);
        page.resize(BLOCK, word)?;
        first_bytes.add(word, start, start + BLOCK);
        return Ok(());
    }
    let mut from = 0;
    while from < BLOCK {
        let word = properties.word(start + from);
        let end = properties.run_end(word, block, from);
        page.resize(end, word)?;
        first_bytes.add(word, start + from, start + end);
        from = end;
    }
    Ok(())
}

impl Words {
    /// The words of five properties.
    pub(crate) fn of(alloc: Global, properties: &Properties) -> Result<Words, AllocError>
        ensures table { IfOk result (λ words. IsWordTable words) }
        ensures words { IfOk result (λ words. (c : ℕ) → c < 0x110000
            → word_in words c ≡ word_with properties.now c) }
        ensures first_bytes { IfOk result (λ words. AreFirstBytes (word_with properties.now) 0x110000 words.first_bytes) }
    {
        let mut starts = Vec::with_capacity(alloc, BLOCKS)?;
        let mut pages = Vec::new(alloc);
        let mut first_bytes = FirstBytes::new();
        let mut page = Vec::with_capacity(alloc, BLOCK)?;
        for block in 0..BLOCKS {
            if block > 0 && properties.repeat(pages[starts[block - 1]], block) {
                let shared = starts[block - 1];
                first_bytes.add(pages[shared], block * BLOCK, block * BLOCK + BLOCK);
                starts.push(shared)?;
                continue;
            }
            starts.push(pages.len())?;
            fill_page(&mut page, &mut first_bytes, properties, block)?;
            pages.extend_from_slice(&page)?;
        }
        Ok(Words {
            starts,
            pages,
            first_bytes,
        })
    }

    /// The word of a code point.
    #[inline]
    pub(crate) fn at(&self, c: usize) -> Word
        requires table { IsWordTable self.now }
        requires code_point { c < 0x110000 }
        ensures { result ≡ word_in self.now c }
    {
        self.pages[self.starts[c / BLOCK] + c % BLOCK]
    }
}
