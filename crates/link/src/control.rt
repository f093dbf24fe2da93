//! The control octet of a frame of the line (IEC 60870-5-2:1992, 5.1.2).
ghost use Rattle.std.specs.Prelude.{◌≡◌, ◌≤◌, ◌<◌, ℕ};
ghost use Rattle.link.specs.Control.{primary_code, secondary_code, HasFields, weight, octet_of};
ghost use Rattle.link.specs.Control.{shows_acd, shows_dfc};
ghost use Rattle.link.specs.declared.control.Control as value;

/// What a primary station's frame is for, in unbalanced transmission (IEC 60870-5-2, 5.1.2).
#[derive(Clone, Copy, Debug, PartialEq, Eq)]
pub enum PrimaryFunction {
    /// To reset the link.
    ResetLink = 0,
    /// To reset the user process.
    ResetProcess = 1,
    /// Reserved (balanced transmission tests the link by it).
    Reserved2 = 2,
    /// User data that are to be confirmed.
    UserData = 3,
    /// User data without a reply.
    UserDataUnconfirmed = 4,
    /// Reserved.
    Reserved5 = 5,
    /// For special use by agreement.
    Special6 = 6,
    /// For special use by agreement.
    Special7 = 7,
    /// A request for access demand.
    AccessDemand = 8,
    /// A request for the status of the link.
    LinkStatus = 9,
    /// A request for user data of class 1.
    Class1 = 10,
    /// A request for user data of class 2.
    Class2 = 11,
    /// Reserved.
    Reserved12 = 12,
    /// Reserved.
    Reserved13 = 13,
    /// For special use by agreement.
    Special14 = 14,
    /// For special use by agreement.
    Special15 = 15,
}

/// What a secondary station's frame says, in unbalanced transmission (IEC 60870-5-2, 5.1.2).
#[derive(Clone, Copy, Debug, PartialEq, Eq)]
pub enum SecondaryFunction {
    /// A positive acknowledgement.
    Confirm = 0,
    /// A negative one: the message wasn't accepted, the link is busy.
    Busy = 1,
    /// Reserved.
    Reserved2 = 2,
    /// Reserved.
    Reserved3 = 3,
    /// Reserved.
    Reserved4 = 4,
    /// Reserved.
    Reserved5 = 5,
    /// For special use by agreement.
    Special6 = 6,
    /// For special use by agreement.
    Special7 = 7,
    /// User data.
    UserData = 8,
    /// The requested data aren't available.
    NoData = 9,
    /// Reserved.
    Reserved10 = 10,
    /// The status of the link, or access demand.
    LinkStatus = 11,
    /// Reserved.
    Reserved12 = 12,
    /// For special use by agreement.
    Special13 = 13,
    /// The link service isn't functioning.
    NotFunctioning = 14,
    /// The link service isn't implemented.
    NotImplemented = 15,
}

/// A control octet. Every octet is one, and no two values have the same octet
/// ([`controls_are_octets`]).
#[derive(Clone, Copy, Debug, PartialEq, Eq)]
pub enum Control {
    /// The primary station's (PRM is 1).
    Primary {
        /// Bit 7, which unbalanced transmission reserves.
        reserved: bool,
        /// FCB, the frame count bit.
        fcb: bool,
        /// FCV: the frame count bit is valid.
        fcv: bool,
        function: PrimaryFunction,
    },
    /// A secondary station's (PRM is 0).
    Secondary {
        /// Bit 7, which unbalanced transmission reserves.
        reserved: bool,
        /// ACD, access demand: data of class 1 wait.
        acd: bool,
        /// DFC, data flow control: further user data may be lost.
        dfc: bool,
        function: SecondaryFunction,
    },
}

impl PrimaryFunction {
    fn from_code(code: u8) -> PrimaryFunction
        requires { code < 16 }
        ensures { primary_code result ≡ code }
    {
        match code {
            0 => PrimaryFunction::ResetLink,
            1 => PrimaryFunction::ResetProcess,
            2 => PrimaryFunction::Reserved2,
            3 => PrimaryFunction::UserData,
            4 => PrimaryFunction::UserDataUnconfirmed,
            5 => PrimaryFunction::Reserved5,
            6 => PrimaryFunction::Special6,
            7 => PrimaryFunction::Special7,
            8 => PrimaryFunction::AccessDemand,
            9 => PrimaryFunction::LinkStatus,
            10 => PrimaryFunction::Class1,
            11 => PrimaryFunction::Class2,
            12 => PrimaryFunction::Reserved12,
            13 => PrimaryFunction::Reserved13,
            14 => PrimaryFunction::Special14,
            _ => PrimaryFunction::Special15,
        }
    }

    /// The number of the function, 0 to 15.
    pub fn code(self) -> u8
        ensures number { result ≡ primary_code self }
        ensures small { result < 16 }
    {
        self as u8
    }
}

impl SecondaryFunction {
    fn from_code(code: u8) -> SecondaryFunction
        requires { code < 16 }
        ensures { secondary_code result ≡ code }
    {
        match code {
            0 => SecondaryFunction::Confirm,
            1 => SecondaryFunction::Busy,
            2 => SecondaryFunction::Reserved2,
            3 => SecondaryFunction::Reserved3,
            4 => SecondaryFunction::Reserved4,
            5 => SecondaryFunction::Reserved5,
            6 => SecondaryFunction::Special6,
            7 => SecondaryFunction::Special7,
            8 => SecondaryFunction::UserData,
            9 => SecondaryFunction::NoData,
            10 => SecondaryFunction::Reserved10,
            11 => SecondaryFunction::LinkStatus,
            12 => SecondaryFunction::Reserved12,
            13 => SecondaryFunction::Special13,
            14 => SecondaryFunction::NotFunctioning,
            _ => SecondaryFunction::NotImplemented,
        }
    }

    /// The number of the function, 0 to 15.
    pub fn code(self) -> u8
        ensures number { result ≡ secondary_code self }
        ensures small { result < 16 }
    {
        self as u8
    }
}

fn weight(place: u8, bit: bool) -> u8
    ensures weight { result ≡ weight place bit }
    ensures most { result ≤ place }
{
    if bit { place } else { 0 }
}

impl Control {
    /// The value of a control octet.
    pub fn from_octet(octet: u8) -> Control
        ensures { HasFields result octet }
    {
        let reserved = octet / 128 % 2 == 1;
        let high = octet / 32 % 2 == 1;
        let low = octet / 16 % 2 == 1;
        let code = octet % 16;
        if octet / 64 % 2 == 1 {
            Control::Primary {
                reserved,
                fcb: high,
                fcv: low,
                function: PrimaryFunction::from_code(code),
            }
        } else {
            Control::Secondary {
                reserved,
                acd: high,
                dfc: low,
                function: SecondaryFunction::from_code(code),
            }
        }
    }

    /// The octet.
    pub fn octet(self) -> u8
        ensures { result ≡ octet_of self }
    {
        match self {
            Control::Primary {
                reserved,
                fcb,
                fcv,
                function,
            } => 64 + weight(32, fcb) + weight(16, fcv) + function.code() + weight(128, reserved),
            Control::Secondary {
                reserved,
                acd,
                dfc,
                function,
            } => weight(32, acd) + weight(16, dfc) + function.code() + weight(128, reserved),
        }
    }
}

/// Whether a secondary station's octet says that data of class 1 wait.
pub(crate) fn shows_acd(octet: u8) -> bool
    ensures { result ≡ shows_acd octet }
{
    matches!(
        Control::from_octet(octet),
        Control::Secondary { acd: true, .. }
    )
}

/// Whether a secondary station's octet says that further user data may be lost.
pub(crate) fn shows_dfc(octet: u8) -> bool
    ensures { result ≡ shows_dfc octet }
{
    matches!(
        Control::from_octet(octet),
        Control::Secondary { dfc: true, .. }
    )
}

/// Every control octet is that of exactly one value, and every value's octet is that value's.
pub fn controls_are_octets()
    ensures fields { (v : value.Control) → HasFields v (octet_of v) }
    ensures octet { (v : value.Control) (octet : ℕ) → octet < 256 → HasFields v octet →
        octet_of v ≡ octet }
    ensures one { (v w : value.Control) (octet : ℕ) → HasFields v octet → HasFields w octet →
        v ≡ w }
{}
