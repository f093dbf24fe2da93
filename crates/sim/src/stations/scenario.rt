//! What a text says to the outstations.
use crate::script::Script;
use crate::stations::cue::Cue;

/// What a text says to the outstations: a script of `sim`, and lines for them alone.
#[derive(Drop)]
pub struct Scenario {
    /// The script.
    pub script: Script,
    /// What the lines for them alone say, in their order.
    pub cues: Vec<Cue>,
}
