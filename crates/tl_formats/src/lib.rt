//! Which rows are written, and how: filters and waivers, JSON, JUnit; reports that are read, and merged.
#![tactic(auto)]

mod beat;
mod by_link;
mod html;
mod json;
mod json_merging;
mod json_report;
mod json_row;
mod junit;
mod merged_text;
mod merging;
mod output;
mod page;
mod page_script;
pub mod parts;
mod pick;
mod report_fault;
mod report_line;
mod report_reading;
mod report_row;
mod waiver_fault;
mod waivers;

pub use html::html_text;
pub use json::json_text;
pub use junit::junit_text;
pub use merged_text::MergedText;
pub use merging::merge_texts;
pub use output::{Printed, Title, print_rows};
pub use pick::{Pick, Waiver};
pub use report_fault::{MergeFault, ReportFault, TextsFault};
pub use report_reading::{ReportText, read_report};
pub use report_row::ReportRow;
pub use waiver_fault::WaiverFault;
pub use waivers::read_waivers;
