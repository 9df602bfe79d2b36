// Reads the lines of a text and the words of a line, numbers, and labels.
#![tactic(auto)]

mod labels;
mod lines;
mod names;
mod numerals;

pub use labels::{Definition, find_label, label, unlabelled, value};
pub use lines::{FirstLine, FirstWord, Lines, first_line, first_word};
pub use names::is_name;
pub use numerals::{integer, number, register};
