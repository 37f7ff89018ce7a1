//! A row as a picture: the messages from the earlier beat that makes it so to its own, as a ladder of text, as an image, and as a
//! waveform.
#![tactic(auto)]

mod dump;
mod image;
mod ladder;
mod moments;
mod savefile;
mod scene;
mod shapes;
mod signals;
mod steps;

pub use dump::dump_text;
pub use image::image_text;
pub use ladder::ladder_text;
pub use savefile::savefile_text;
pub use scene::{Scene, scene_of};
