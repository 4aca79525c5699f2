// Names.

use run_theory::{ByteString, Pos};

/// A name (C17 6.4.2.1) and its place.
#[derive(Debug, Drop)]
pub struct Name {
    pub bytes: ByteString,
    pub place: Pos,
}
