// The text of the program `hits`: the words of its files, and the lines that it prints.
#![tactic(auto)]

pub mod files;
pub mod hit;
pub mod text;
pub mod words;
