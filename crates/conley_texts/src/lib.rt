//! Texts as lines of words: the words of a line are given by what they are made from, and one writer joins them.
//! Open specs/Line.antt for lines and texts, then specs/Words.antt for the words. The line of a fault is told without memory.
#![tactic(auto)]

mod put;
mod words;

pub use put::{put_told, put_whole};
pub use words::{Words, push_line};
