//! What no clause says of the crates of the layout, as tables of cases.
#![tactic(auto)]

#[cfg(test)]
mod bidi_explicit_tests;
#[cfg(test)]
mod bidi_weak_neutral_tests;
#[cfg(test)]
mod bracket_pairs_tests;
#[cfg(test)]
mod buffers;
#[cfg(test)]
mod caret_tests;
#[cfg(test)]
mod cell_grid_tests;
#[cfg(test)]
mod drawn;
#[cfg(test)]
mod first_paragraph;
#[cfg(test)]
mod grids;
#[cfg(test)]
mod line_break_tests;
#[cfg(test)]
mod paragraphs_tests;
#[cfg(test)]
mod pictures_tests;
#[cfg(test)]
mod pieces;
#[cfg(test)]
mod reorder_tests;
#[cfg(test)]
mod rows;
#[cfg(test)]
mod text_buffer_burst_tests;
#[cfg(test)]
mod text_buffer_kept_tests;
#[cfg(test)]
mod text_buffer_tests;
#[cfg(test)]
mod ucd_files_tests;
#[cfg(test)]
mod view_cache_tests;
