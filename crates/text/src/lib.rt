// A text in a lent buffer. Each call writes from the text's end on, as far as the buffer has places.
//
//   Text::new(buffer)    an empty text at the buffer's start
//   text.put(byte)       a byte
//   text.copy(part)      the bytes of a part
//   text.letters(word)   the letters of a word, A first
//   text.number(n)       a number in decimal
//   text.value(x)        the same of a value that may be below 0
//   text.len()           how many bytes it has
//   text.bytes()         those bytes
#![tactic(auto)]

mod bytes;
mod numbers;

pub use bytes::Text;
