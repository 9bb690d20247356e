// Words: 16-bit sets of letters, bit 0 for A. Each function takes any input.
//
//   has_letter(word, i)              whether letter i stands in the word
//   has_beyond(word, n)              whether a letter from n on does
//   count_letters(word)              how many letters it has
//   is_odd_word(word)                whether that is an odd number
//   is_odd(run, word)                whether an odd number of the word's letters are high in the run
//   is_among(word, words)            whether the word is one of the words
//   is_repeated(words)               whether one of them is there twice
//   combine(first, chosen, words)    the first word combined with those of the words that are chosen
//   choices(words)                   how many ways there are to choose some of so many words; 0 for 16 and more
#![tactic(auto)]

mod letters;
mod lists;

pub use letters::{count_letters, has_beyond, has_letter, is_odd, is_odd_word};
pub use lists::{choices, combine, is_among, is_repeated};
