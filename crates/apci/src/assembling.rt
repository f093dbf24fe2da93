//! APDUs out of pieces of a stream, with each octet looked at once.

ghost use Rattle.std.specs.Prelude.{◌≡◌, ℕ, ◌+◌, ◌-◌, ◌^◌, ◌<◌, ◌≤◌, min, ◌↔◌, List, None, [], ◌∷◌};
ghost use Rattle.std.specs.Prelude.{◌++◌, length, Some, IfSome, IfNone, IsTrue, OnOk};
ghost use Rattle.apci.specs.declared.assembling.Received.{Received};
ghost use Rattle.apci.specs.declared.assembling.Received.TheVariants.{Deaf as ReceivedDeaf};
ghost use Rattle.apci.specs.declared.assembling.State.TheVariants as State;
ghost use Rattle.apci.specs.Assembly.{Receives, HasLooked, IsResumable, so_far_numbers};
ghost use Rattle.apci.specs.Reading.{IsMore};
ghost use Rattle.apci.specs.Progress.{so_far, whole, IsState, Gives};

use crate::apdu::{Apdu, Short, Uf, Why};
use crate::control::{Format, counter_of, format_of};
use crate::writing::{START, counter_octets};
use arrayvec::ArrayVec;
use std::alloc::AllocError;
use std::marker::Model;
use std::mem;

/// What an assembler receives in a piece.
#[derive(Clone, Copy, Debug, PartialEq, Eq)]
pub enum Received {
    /// The last octet of an APDU, which `take` answers.
    Whole,
    /// The beginning of an APDU, or nothing.
    More,
    /// No APDU and no beginning of one: what `front` answers for the octets since the last APDU.
    Never(usize, Why),
    /// Nothing, since octets before began no APDU.
    Deaf,
}

/// Which octet of an APDU is due, with what the octets before it said. The octets of an ASDU stand
/// apart.
#[derive(Clone, Copy)]
enum State {
    /// None: octets before began no APDU.
    Deaf,
    Start,
    Length,
    Control { len: u8 },
    ISecond { len: u8, low: u8 },
    IThird { len: u8, ns: u16 },
    IFourth { len: u8, ns: u16, low: u8 },
    Asdu { len: u8, ns: u16, nr: u16 },
    SSecond,
    SThird,
    SFourth { low: u8 },
    USecond(Uf),
    UThird(Uf),
    UFourth(Uf),
    /// The first one: an I format, whose ASDU stands apart, is whole and isn't taken yet.
    Information { ns: u16, nr: u16 },
    /// The first one: an S or U format is whole and isn't taken yet.
    Short(Short),
}

/// Puts octets behind a line of numbers.
fn put_all(octets: &[u8], line: &mut Vec<u64>) -> Result<(), AllocError>
    ensures { OnOk result (line.new.items ≡ line.old.items ++ octets.now) }
{
    for octet in octets {
        line.push(u64::from(*octet))?;
    }
    Ok(())
}

impl State {
    /// Puts the octets that it stands for behind a line of numbers.
    fn put(self, asdu: &[u8], line: &mut Vec<u64>) -> Result<(), AllocError>
        requires { IsState self asdu.now }
        ensures { OnOk result (line.new.items
            ≡ line.old.items ++ so_far_numbers (so_far self asdu.now)) }
    {
        match self {
            State::Deaf => put_all(&[0], line),
            // What is whole isn't put: a state is put between two steps, and a step takes what is
            // whole.
            State::Start | State::Information { .. } | State::Short(_) => put_all(&[1], line),
            State::Length => put_all(&[1, START], line),
            State::Control { len } => put_all(&[1, START, len], line),
            State::ISecond { len, low } => put_all(&[1, START, len, low], line),
            State::IThird { len, ns } => {
                let ns = counter_octets(ns);
                put_all(&[1, START, len, ns[0], ns[1]], line)
            }
            State::IFourth { len, ns, low } => {
                let ns = counter_octets(ns);
                put_all(&[1, START, len, ns[0], ns[1], low], line)
            }
            State::Asdu { len, ns, nr } => {
                let ns = counter_octets(ns);
                let nr = counter_octets(nr);
                put_all(&[1, START, len, ns[0], ns[1], nr[0], nr[1]], line)?;
                put_all(asdu, line)
            }
            State::SSecond => put_all(&[1, START, 4, 0x01], line),
            State::SThird => put_all(&[1, START, 4, 0x01, 0x00], line),
            State::SFourth { low } => put_all(&[1, START, 4, 0x01, 0x00, low], line),
            State::USecond(function) => put_all(&[1, START, 4, function.octet()], line),
            State::UThird(function) => put_all(&[1, START, 4, function.octet(), 0x00], line),
            State::UFourth(function) => {
                put_all(&[1, START, 4, function.octet(), 0x00, 0x00], line)
            }
        }
    }
}

/// What one octet gives.
#[derive(Clone, Copy)]
enum OctetStep {
    /// The next octet is due by this state.
    Goes(State),
    /// It is an octet of the ASDU, and more are due.
    Keeps,
    /// It is the last octet of the ASDU of an I format.
    I { ns: u16, nr: u16 },
    /// It is the last octet of an S format.
    S { nr: u16 },
    /// It is the last octet of a U format.
    U(Uf),
    Never(usize, Why),
}

/// What the length gives.
fn length_step(octet: u8) -> OctetStep
    ensures { Gives (0x68 ∷ octet ∷ []) [] octet State.Length result }
{
    // At least four control octets, and at most what the standard allows (IEC 60870-5-104, 5).
    if octet < 4 || octet > 253 {
        return OctetStep::Never(1, Why::Length);
    }
    OctetStep::Goes(State::Control { len: octet })
}

/// What the first control octet gives.
fn control_step(len: u8, octet: u8) -> OctetStep
    requires long { 4 ≤ len }
    requires short { len ≤ 253 }
    ensures { Gives (0x68 ∷ len ∷ octet ∷ []) [] octet (State.Control len) result }
{
    // The format before the length: it says which lengths there are (docs/DECISIONS.md, "APDUs
    // whose length decides too early").
    match format_of(octet) {
        Format::Unknown => OctetStep::Never(2, Why::Control),
        Format::I => {
            if len < 13 {
                OctetStep::Never(1, Why::Short)
            } else {
                OctetStep::Goes(State::ISecond { len, low: octet })
            }
        }
        Format::S => {
            if len != 4 {
                OctetStep::Never(1, Why::NotFour)
            } else {
                OctetStep::Goes(State::SSecond)
            }
        }
        Format::U(function) => {
            if len != 4 {
                OctetStep::Never(1, Why::NotFour)
            } else {
                OctetStep::Goes(State::USecond(function))
            }
        }
    }
}

/// What the next octet gives.
fn stepped(state: State, asdu: &[u8], octet: u8) -> OctetStep
    requires right { IsState state asdu.now }
    requires taken { whole state asdu.now ≡ None }
    ensures { IfSome (so_far state asdu.now) (λ octets.
        Gives (octets ++ octet ∷ []) asdu.now octet state result) }
{
    match state {
        // Never from these: `feed` answers for a deaf one, and forgets what is whole.
        State::Deaf | State::Information { .. } | State::Short(_) => OctetStep::Goes(State::Deaf),
        State::Start if octet != START => OctetStep::Never(0, Why::Start),
        State::Start => OctetStep::Goes(State::Length),
        State::Length => length_step(octet),
        State::Control { len } => control_step(len, octet),
        State::ISecond { len, low } => OctetStep::Goes(State::IThird {
            len,
            ns: counter_of(low, octet),
        }),
        // The bit below N(R) is fixed to 0 (IEC 60870-5-104, 5).
        State::IThird { .. } if octet % 2 == 1 => OctetStep::Never(4, Why::Control),
        State::IThird { len, ns } => OctetStep::Goes(State::IFourth {
            len,
            ns,
            low: octet,
        }),
        State::IFourth { len, ns, low } => OctetStep::Goes(State::Asdu {
            len,
            ns,
            nr: counter_of(low, octet),
        }),
        State::Asdu { len, .. } if asdu.len() + 5 < usize::from(len) => OctetStep::Keeps,
        State::Asdu { ns, nr, .. } => OctetStep::I { ns, nr },
        State::SSecond if octet != 0 => OctetStep::Never(3, Why::Control),
        State::SSecond => OctetStep::Goes(State::SThird),
        State::USecond(_) if octet != 0 => OctetStep::Never(3, Why::Control),
        State::USecond(function) => OctetStep::Goes(State::UThird(function)),
        State::SThird if octet % 2 == 1 => OctetStep::Never(4, Why::Control),
        State::SThird => OctetStep::Goes(State::SFourth { low: octet }),
        State::SFourth { low } => OctetStep::S {
            nr: counter_of(low, octet),
        },
        State::UThird(_) if octet != 0 => OctetStep::Never(4, Why::Control),
        State::UThird(function) => OctetStep::Goes(State::UFourth(function)),
        State::UFourth(_) if octet != 0 => OctetStep::Never(5, Why::Control),
        State::UFourth(function) => OctetStep::U(function),
    }
}

/// Makes APDUs out of pieces of a stream.
///
/// It keeps the fields so far, and no octet but those of an ASDU. Contracts see the octets since
/// the last APDU, or none if it is deaf, the APDU that is whole and isn't taken yet, and how many
/// octets it has looked at.
#[derive(Drop)]
pub struct Assembler {
    state: State,
    asdu: ArrayVec<u8, 249>,
    looked: u64,
}

impl Model for Assembler {
    ghost use Rattle.apci.specs.Assembly.{Assembly};

    ghost Value = { Assembly };

    ghost use Rattle.apci.specs.Progress.{so_far, whole, IsState};

    ghost view = { λ a. record {
      so_far = so_far a.state a.asdu.items;
      whole = whole a.state a.asdu.items;
      looked = a.looked;
    } };

    ghost invariant = { λ a. IsState a.state a.asdu.items };
}

fn is_deaf(state: &State) -> bool
    ensures { IsTrue result ↔ (state.now ≡ State.Deaf) }
{
    matches!(state, State::Deaf)
}

/// The octet, counted.
fn look(looked: &mut u64, octet: &u8) -> u8
    ensures value { result ≡ octet.now }
    ensures counted { looked.new ≡ min (2 ^ 64 - 1) (looked.old + 1) }
{
    // At its limit the count stays: one that wrapped would say too little (docs/DECISIONS.md,
    // "Octets looked at").
    *looked = looked.saturating_add(1);
    *octet
}

impl Assembler {
    /// An assembler that has received nothing.
    pub fn new() -> Self
        ensures so_far { result.so_far ≡ Some [] }
        ensures whole { result.whole ≡ None }
        ensures looked { result.looked ≡ 0 }
    {
        Assembler {
            state: State::Start,
            asdu: ArrayVec::new(),
            looked: 0,
        }
    }

    /// An assembler that was fed these octets. If an APDU may go on from them, it goes on.
    pub fn resumed(octets: &[u8]) -> Self
        ensures fed { (n : ℕ) × (arrived : Received) × Receives [] octets.now n arrived result }
        ensures so_far { IsMore octets.now → result.so_far ≡ Some octets.now }
        ensures whole { IsMore octets.now → result.whole ≡ None }
    {
        let mut assembler = Assembler::new();
        // What arrived shows in the assembler, and the caller asks for it there.
        let _arrived = assembler.feed(octets);
        assembler
    }

    /// Puts the octets since the last APDU behind a line of numbers, or that it is deaf. An APDU
    /// that is whole and isn't taken yet isn't put. `resumed` takes the octets up again.
    pub fn put_so_far(&self, line: &mut Vec<u64>) -> Result<(), AllocError>
        ensures line { OnOk result (line.new.items
            ≡ line.old.items ++ so_far_numbers self.now.so_far) }
        ensures resumable { IfSome self.now.so_far IsResumable }
    {
        self.state.put(&self.asdu, line)
    }

    /// Whether it receives nothing until `clear`, since octets before began no APDU.
    pub fn is_deaf(&self) -> bool
        ensures { IsTrue result ↔ (self.now.so_far ≡ None) }
    {
        matches!(self.state, State::Deaf)
    }

    /// Whether no octet has come since the last APDU, and that is taken: so it has kept nothing.
    pub fn is_empty(&self) -> bool
        ensures { IsTrue result ↔ ((self.now.so_far ≡ Some []) × (self.now.whole ≡ None)) }
    {
        matches!(self.state, State::Start)
    }

    /// How many octets it has looked at, saturating.
    pub fn looked(&self) -> u64
        ensures { result ≡ self.now.looked }
    {
        self.looked
    }

    /// Takes octets of a piece, up to the last one of an APDU, and says how many and what arrived.
    /// It takes them all if no APDU ends in the piece. After a refusal it takes and drops all
    /// octets until `clear`. An APDU that wasn't taken before is dropped.
    pub fn feed(&mut self, piece: &[u8]) -> (usize, Received)
        ensures listening { IfSome self.old.so_far (λ so_far.
            Receives so_far piece.now result.0 result.1 self.new) }
        ensures deaf { IfNone self.old.so_far
            ((result.0 ≡ length piece.now) × (result.1 ≡ ReceivedDeaf) × (self.new ≡ self.old)) }
        ensures within { result.0 ≤ length piece.now }
        ensures progress { 0 < length piece.now → 0 < result.0 }
        ensures looked { IfSome self.old.so_far (λ so_far.
            HasLooked so_far piece.now self.old.looked result.0 result.1 self.new.looked) }
        ensures at_most_once { self.new.looked ≤ self.old.looked + result.0 }
    {
        if is_deaf(&self.state) {
            return (piece.len(), Received::Deaf);
        }
        self.forget();
        self.listen(piece)
    }

    /// Takes octets of a piece, if it isn't deaf and no APDU is left to be taken.
    fn listen(&mut self, piece: &[u8]) -> (usize, Received)
        requires listens { (so_far : List ℕ) × (self.old.so_far ≡ Some so_far) }
        requires taken { self.old.whole ≡ None }
        ensures listening { IfSome self.old.so_far (λ so_far.
            Receives so_far piece.now result.0 result.1 self.new) }
        ensures within { result.0 ≤ length piece.now }
        ensures progress { 0 < length piece.now → 0 < result.0 }
        ensures looked { IfSome self.old.so_far (λ so_far.
            HasLooked so_far piece.now self.old.looked result.0 result.1 self.new.looked) }
        ensures at_most_once { self.new.looked ≤ self.old.looked + result.0 }
    {
        for (i, octet) in piece.iter().enumerate() {
            let octet = look(&mut self.looked, octet);
            match stepped(self.state, &self.asdu, octet) {
                OctetStep::Goes(state) => self.state = state,
                OctetStep::Keeps => self.asdu.push(octet),
                OctetStep::I { ns, nr } => {
                    self.asdu.push(octet);
                    self.state = State::Information { ns, nr };
                    return (i + 1, Received::Whole);
                }
                OctetStep::S { nr } => {
                    self.state = State::Short(Short::S { nr });
                    return (i + 1, Received::Whole);
                }
                OctetStep::U(function) => {
                    self.state = State::Short(Short::U(function));
                    return (i + 1, Received::Whole);
                }
                OctetStep::Never(place, why) => {
                    // Nothing in a stream says where the next APDU would begin, so the rest of it
                    // can't be read.
                    self.state = State::Deaf;
                    return (piece.len(), Received::Never(place, why));
                }
            }
        }
        (piece.len(), Received::More)
    }

    /// An APDU that is whole is dropped.
    fn forget(&mut self)
        ensures { self.new ≡ record self.old { whole = None } }
    {
        // There is one place for an ASDU, and the next octets want it.
        if let State::Information { .. } | State::Short(_) = self.state {
            self.clear();
        }
    }

    /// The whole APDU that arrived last, if it isn't taken yet.
    pub fn take(&mut self) -> Option<Apdu>
        ensures apdu { result ≡ self.old.whole }
        ensures rest { self.new ≡ record self.old { whole = None } }
    {
        match self.state {
            State::Information { ns, nr } => {
                self.state = State::Start;
                let asdu = mem::replace(&mut self.asdu, ArrayVec::new());
                Some(Apdu::I { ns, nr, asdu })
            }
            State::Short(apdu) => {
                self.state = State::Start;
                Some(apdu.to_apdu())
            }
            _ => None,
        }
    }

    /// Begins afresh: it receives again, and what had come of an APDU is forgotten.
    pub fn clear(&mut self)
        ensures so_far { self.new.so_far ≡ Some [] }
        ensures whole { self.new.whole ≡ None }
        ensures looked { self.new.looked ≡ self.old.looked }
    {
        self.state = State::Start;
        self.asdu.clear();
    }
}
