//! What a command prints.

/// What a command prints on standard output, and its exit status.
#[derive(Drop)]
pub(crate) struct CommandAnswer {
    pub(crate) text: Vec<u8>,
    pub(crate) status: u8,
}
