//! Tests of a desk, alone and in a hall: how often it calls its monitors, windows that go out and come back, lists of steps, when a
//! monitor is dropped, calls that are refused memory and made again; what one thread tells another, workers at once and alone, and
//! windows that come back late or to another hall.
//!
//! A desk or a hall is let go by `drop`, and what it answers is taken apart by `match`. Each of these is proved in about a second; a
//! desk that ends with its function, an answer's `is_ok` or `ok()?`, or an index into an array of texts took ten and more.
#![tactic(auto)]

#[cfg(test)]
mod bench;
#[cfg(test)]
mod boxes;
#[cfg(test)]
mod boxes_out;
#[cfg(test)]
mod checks;
#[cfg(test)]
mod counting;
#[cfg(test)]
mod gates;
#[cfg(test)]
mod hall_bench;
#[cfg(test)]
mod hall_refusals;
#[cfg(test)]
mod logs;
#[cfg(test)]
mod lost;
#[cfg(test)]
mod plays;
#[cfg(test)]
mod refusals;
#[cfg(test)]
mod refusals_of_windows;
#[cfg(test)]
mod retries;
#[cfg(test)]
mod shelf;
#[cfg(test)]
mod texts;
#[cfg(test)]
mod tickets;
#[cfg(test)]
mod workers;
