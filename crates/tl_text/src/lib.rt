//! What all text forms of the product share: lines, words, numbers, bits and names, each accepted in its one spelling,
//! and the traits through which bytes come in and go out.
#![tactic(auto)]

mod counted;
mod input;
mod name;
mod names;
mod numbers;
mod output;
mod words;
mod writing;

pub use counted::{CountedReader, CountedWriter};
pub use input::{ByteIn, ReadFailed, TextFault, read_text};
pub use name::Name;
pub use names::{bit, is_name};
pub use numbers::{decimal, hexadecimal};
pub use output::{ByteOut, WriteFault, write_all};
pub use words::{line, word};
pub use writing::{Word, write_words};
