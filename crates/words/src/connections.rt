//! APDUs of the connection in words.
ghost use Rattle.std.specs.Prelude.{◌≡◌, ◌++◌, IfOk, OnOk, length, string_bytes};
ghost use Rattle.apci.specs.Borrowed.{owned, owned_front};
ghost use Rattle.words.specs.TcpFacts.{apdu_condition, front_condition, function_text as function_words};
ghost use Rattle.words.specs.Faults.{no_frame};
ghost use Rattle.words.specs.Connections.{apdu_words, fault_of as fault_in, front_words};
ghost use Rattle.words.specs.Connections.{numbers_words, AreConnectionWords};

use crate::facts::{Condition, Shown};
use crate::faults::{push_cut_off, push_no_frame, push_rest, with_rest};
use crate::units::push_data;
use apci::{ApduRef, FrontRef, Uf, Why, front_ref};
use asdu::Sizes;
use std::alloc::{AllocError, Global};

/// Says in words, on one line, what stands at the front of octets of the connection: the APDU and
/// its ASDU, and how many octets follow; or that they begin an APDU, or why they begin none. The
/// condition is that of `show_tcp`.
pub fn words_of_connection(alloc: Global, octets: &[u8]) -> Result<Shown, AllocError>
    ensures { IfOk result (λ shown.
        AreConnectionWords octets.now (string_bytes shown.lines) shown.condition) }
{
    let front = front_ref(octets);
    let mut lines = String::new(alloc);
    let condition = push_front(alloc, &mut lines, octets.len(), front)?;
    lines.push_str("\n")?;
    Ok(Shown { lines, condition })
}

/// Appends what stands at the front of so many octets.
#[tactic(auto, unfolding(crate::specs::Connections::front_words))]
fn push_front(
    alloc: Global,
    line: &mut String,
    count: usize,
    front: FrontRef<'_>,
) -> Result<Condition, AllocError>
    ensures words { OnOk result (string_bytes line.new
        ≡ string_bytes line.old ++ front_words count (owned_front front.entry)) }
    ensures condition { IfOk result (λ condition.
        condition ≡ front_condition count (owned_front front.entry)) }
{
    match front {
        FrontRef::Whole(apdu, len) => {
            let condition = push_apdu(alloc, line, apdu)?;
            // An APDU is never longer than what it was read from; said so that it needs no proof.
            let rest = count.saturating_sub(len);
            push_rest(line, rest)?;
            Ok(with_rest(condition, rest))
        }
        FrontRef::More => {
            push_cut_off(line, count)?;
            Ok(Condition::Faulty)
        }
        FrontRef::Never(place, why) => {
            push_apdu_refusal(line, place, why)?;
            Ok(Condition::Faulty)
        }
    }
}

/// Appends an APDU in words, and says whether its ASDU is as it should be.
#[tactic(auto, unfolding(crate::specs::Connections::apdu_words))]
pub fn push_apdu(
    alloc: Global,
    line: &mut String,
    apdu: ApduRef<'_>,
) -> Result<Condition, AllocError>
    ensures words { OnOk result (string_bytes line.new
        ≡ string_bytes line.old ++ apdu_words (owned apdu.entry)) }
    ensures condition { IfOk result (λ condition. condition ≡ apdu_condition (owned apdu.entry)) }
{
    match apdu {
        ApduRef::I { ns, nr, asdu } => {
            push_numbers(line, ns, nr)?;
            return push_data(alloc, line, Sizes::TCP, asdu);
        }
        ApduRef::S { nr } => write!(line, "S {nr}")?,
        ApduRef::U(function) => line.push_str(function_text(function))?,
    }
    Ok(Condition::Good)
}

/// Appends send and receive number.
#[tactic(auto, unfolding(crate::specs::Connections::numbers_words))]
fn push_numbers(line: &mut String, ns: u16, nr: u16) -> Result<(), AllocError>
    ensures { OnOk result (string_bytes line.new ≡ string_bytes line.old ++ numbers_words ns nr) }
{
    write!(line, "I {ns} {nr}")
}

fn function_text(function: Uf) -> &'static str
    ensures { result.now ≡ function_words function }
{
    match function {
        Uf::StartAct => "STARTDT act",
        Uf::StartCon => "STARTDT con",
        Uf::StopAct => "STOPDT act",
        Uf::StopCon => "STOPDT con",
        Uf::TestAct => "TESTFR act",
        Uf::TestCon => "TESTFR con",
    }
}

/// Appends why octets begin no APDU, and the first wrong place, from 0.
pub fn push_apdu_refusal(line: &mut String, place: usize, why: Why) -> Result<(), AllocError>
    ensures { OnOk result (string_bytes line.new
        ≡ string_bytes line.old ++ no_frame (fault_in why) place) }
{
    push_no_frame(line, fault_of(why), place)
}

/// What is wrong at the first wrong place.
#[tactic(auto, unfolding(crate::specs::Connections::fault_of))]
fn fault_of(why: Why) -> &'static str
    ensures { result.now ≡ fault_in why }
{
    match why {
        Why::Start => "no start octet",
        Why::Length => "a length out of range",
        Why::Control => "no such format",
        Why::NotFour => "a length other than 4",
        Why::Short => "no room for an ASDU",
    }
}
