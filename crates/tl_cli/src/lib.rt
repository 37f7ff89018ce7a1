//! The program without its process: it does what the words of the command line ask for.
#![tactic(auto)]

mod coming;
mod monitors;
mod run;
mod screen;
mod scripts;
mod watcher;

pub use run::{refuse_words, run_words, run_words_at};
pub use screen::Screen;
pub use tl_commands::Fault;
pub use tl_text::{TextFault, read_text};
