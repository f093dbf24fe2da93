//! What a received ASDU leads to.

use arrayvec::ArrayVec;

/// An own answer: an ASDU to the control centre, in the sizes of IEC 60870-5-104.
pub type OwnAnswer = ArrayVec<u8, 249>;

/// What an ASDU from the control centre leads to.
#[derive(Debug, Drop)]
pub enum Act {
    /// It waits for the line of each station that it is for.
    Forward,
    /// The gateway answers it so.
    Own(OwnAnswer),
}
