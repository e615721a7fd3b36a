//! What the explicit rules make of a paragraph (UAX #9, X1 to X10).

ghost use Rattle.std.specs.Prelude.{◌≡◌, ◌≤◌, IfOk, length, map, is_some, not};
ghost use Rattle.std.specs.List.{All};
ghost use Rattle.paragraphs.specs.Text.{code_points};
ghost use Rattle.paragraphs.specs.Classes.{is_removed};
ghost use Rattle.bidi_explicit.specs.Embedding.{classes_of, embedding, IsWithinDepth};

use crate::embedded::Embedded;
use crate::level::paragraph_level;
use crate::lists::Lists;
use bg_types::{Base, Memory};
use paragraphs::Para;
use std::alloc::Global;
use unicode_tables::Tables;

/// A paragraph's level, what is kept at each of its places with its level and class (X1 to X9), and its
/// isolating run sequences (X10).
/// Cost: O(n), memory for each place.
pub fn explicit(alloc: Global, tables: &Tables, para: &Para, base: Base) -> Result<Embedded, Memory>
    ensures embedding { IfOk result (λ e. e ≡ embedding base (classes_of tables.now para.now.text)) }
    ensures places { IfOk result (λ e. length e.places ≡ length (code_points para.now.text)) }
    ensures removed { IfOk result (λ e. map is_some e.places ≡ map (λ c. not (is_removed c)) (classes_of tables.now para.now.text)) }
    ensures depth { IfOk result (λ e. All IsWithinDepth e.places) }
    ensures sequence_depth { IfOk result (λ e. All (λ s. s.level ≤ 125) e.sequences) }
{
    let level = paragraph_level(tables, para, base);
    let classes = tables.bidi_of_text(alloc, para.text())?;
    let mut embedded = Embedded::new(alloc);
    embedded.embed(&mut Lists::new(alloc), level, &classes)?;
    Ok(embedded)
}
