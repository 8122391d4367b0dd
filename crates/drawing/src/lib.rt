//! Pictures of rows, bars and marks over columns, and the SVG that shows them (W3C, SVG 1.1).
#![tactic(auto)]

mod markup;
mod paint;
mod picture;
mod svg;
mod text;
pub mod waveform;

pub use paint::Paint;
pub use picture::{Bar, Mark, Picture};
pub use svg::svg_of;
