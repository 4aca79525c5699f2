//! The image of a program: what it holds, and its bytes.
#![tactic(auto)]

mod code;
mod functions;
mod image;
mod kinds;
mod laws;
mod number;
mod reading;
mod writing;

pub use image::{Function, Globals, Image, ImageErr, MachineLimits};
pub use laws::{no_image_begins_another, one_image};
pub use reading::from_bytes;
pub use slab_space::PoolKind;
pub use writing::to_bytes;
