//! Why an ASDU from the control centre is refused.

/// The rule by which an ASDU from the control centre is refused.
#[derive(Clone, Copy, Debug, PartialEq, Eq)]
pub enum Refusal {
    /// Its type is none that goes down to a station.
    TypeUnknown,
    /// Its cause is neither activation (6) nor deactivation (8).
    CauseUnknown,
    /// No station has its common address.
    AddressUnknown,
    /// The line can't name its object, or it is an interrogation of another object than 0.
    ObjectUnknown,
    /// It hasn't one whole object.
    NotOneObject,
    /// Its state or its qualifier of interrogation isn't permitted.
    NotPermitted,
    /// Its time tag is so many ms old, which is too many.
    TagOld(u64),
    /// Its time tag is so many ms in the future, which is too many.
    TagAhead(u64),
    /// Its time tag is no time, or says itself that it is wrong.
    TagInvalid,
    /// Nobody knows how old its time tag is: the wall's moment isn't known.
    WallUnknown,
    /// It is an execute that no live selection lets through.
    NotSelected,
    /// Too few places are free for it.
    NoPlace,
}
