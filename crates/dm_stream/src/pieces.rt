//! Pieces, joined and written as lines.

pub mod disk_range;
pub mod disk_text;
pub mod disk_texts;
pub mod diskless_word;
pub mod held_piece;
pub mod join;
pub mod letter;
pub mod line_ends;
pub mod number_prefix;
pub mod piece_text;
pub mod range_text;
