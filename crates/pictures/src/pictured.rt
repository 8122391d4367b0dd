//! The picture of a run: what each line left behind, as bars of lanes and marks of denials.

mod ending;
mod lane;
mod lanes;
mod look;
mod picture;

pub use ending::ending_of;
pub use lane::Lane;
pub use picture::{MOST_FRAMES, picture_of};
