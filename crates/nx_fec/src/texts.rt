//! Words and the table of the code as lines of text.

pub(crate) mod appending;
pub(crate) mod hexadecimal;
pub(crate) mod table_text;
pub(crate) mod word_lines;
