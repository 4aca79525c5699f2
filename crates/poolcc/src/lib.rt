//! What `poolcc` does: compiles a C text to an image for its own machine, and runs images.
#![tactic(auto)]

mod build;
mod compilation;
mod execution;
mod graphs;
mod image_run;
mod reference;
mod text;
mod top;

pub use build::build_file;
pub use compilation::{Analysed, CompileErr, analyse, compile};
pub use execution::exec;
pub use graphs::graph_file;
pub use image_run::run_file;
pub use reference::ref_file;
pub use text::{Stop, image_of, parse};
pub use top::poolcc;
