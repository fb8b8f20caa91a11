// Lucene's length codes and BM25.
#![tactic(auto)]

pub mod small_float; // small_float.rt: a length as a byte
pub mod lengths; // lengths.rt: the lengths of the 256 bytes
pub mod bm25; // bm25.rt: the score of a frequency
