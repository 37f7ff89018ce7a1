//! What the commands of files do: files, reports of them, and the sentences of their faults.
#![tactic(auto)]

mod denial;
mod doctor;
mod laws;
mod merging;
mod midway;
mod pasts;
mod picking;
mod reports;
mod settling;
mod setup;
mod share;
mod streams;
mod telling;
mod views;

pub use denial::{Denial, denial_of_run, edits_in};
pub use doctor::doctor_of_files;
pub use laws::streams_are_apart;
pub use merging::merge_of_files;
pub use midway::midway_notes;
pub use picking::Written;
pub use reports::{Ending, Manner, Past, audit_of_files, ending_of, once_of_files, report_of};
pub use settling::settlement_line;
pub use streams::stream_of_files;
pub use telling::{
    Suspect, input_sentence, input_sentences, once_sentence, run_sentences, script_sentence,
    stream_sentence,
};
pub use tl_files::{Fault, Gauge, LineCounter, Progress, SoFar, script_of, topology_of};
pub use views::view_of_files;
