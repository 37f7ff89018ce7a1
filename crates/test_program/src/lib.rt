//! Tests of what the program stands on, that no clause speaks for and no run of it shows: reads and writes that fail or are short,
//! monitors of a user's own that a run lacks, what a cell holds while its monitor is out, calls that the program has no need of, and
//! faults as a user of the libraries prints them.
#![tactic(auto)]

#[cfg(test)]
mod boxes;
#[cfg(test)]
mod fragment_text;
#[cfg(test)]
mod fragment_writes;
#[cfg(test)]
mod monitors;
#[cfg(test)]
mod parts;
#[cfg(test)]
mod printed;
#[cfg(test)]
mod printed_texts;
#[cfg(test)]
mod reads;
#[cfg(test)]
mod streams;
#[cfg(test)]
mod text;
#[cfg(test)]
mod writes;
