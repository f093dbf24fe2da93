//! The lines of a ladder.
ghost use Rattle.std.specs.Prelude.{◌≡◌, ℕ, ◌++◌, ◌∷◌, List, [], IfOk, OnOk, string_bytes};
ghost use Rattle.gateway.specs.Ports.{output_of};
ghost use Rattle.words.specs.Rungs.{close_text as close_words, colour as colour_of, gap_text};
ghost use Rattle.words.specs.Rungs.{head, received_line, received_remark as remark_of};
ghost use Rattle.words.specs.Rungs.{received_words};
ghost use Rattle.words.specs.Rungs.{late_remark as late_of, plain as plain_of, session_text, side};
ghost use Rattle.words.specs.Rungs.{station_text, way_of as way_of_output, way_text as way_words};
ghost use Rattle.words.specs.Rungs.{AreActionWords, IsActionLine};

use crate::connections::words_of_connection;
use crate::facts::LineSizes;
use crate::faults::push_cut_off;
use crate::lines::{push_line_frame, push_line_refusal, words_of_line};
use ft12::Received;
use gateway::Action;
use session::Close;
use std::alloc::{AllocError, Global};

/// Which way something goes.
#[derive(Clone, Copy)]
pub(crate) enum Way {
    FromOutstation,
    ToOutstation,
    FromCentre,
    ToCentre,
    /// The gateway itself reports something.
    Inside,
}

/// How lines are written.
#[derive(Clone, Copy, PartialEq, Eq)]
pub struct Style {
    /// The sizes of addresses on the line.
    pub sizes: LineSizes,
    /// The lines go to a terminal that is to show colours.
    pub is_coloured: bool,
}

fn way_text(way: Way) -> &'static str
    ensures { result.now ≡ way_words way }
{
    match way {
        Way::FromOutstation => "outstation > gateway",
        Way::ToOutstation => "gateway > outstation",
        Way::FromCentre => "control centre > gateway",
        Way::ToCentre => "gateway > control centre",
        Way::Inside => "gateway",
    }
}

/// What a terminal takes for the colour of a way.
#[tactic(auto, unfolding(crate::specs::Rungs::colour))]
fn colour(is_coloured: bool, way: Way) -> &'static str
    ensures { result.now ≡ colour_of is_coloured way }
{
    if !is_coloured {
        return "";
    }
    match way {
        Way::FromOutstation | Way::ToOutstation => "\x1b[36m",
        Way::FromCentre | Way::ToCentre => "\x1b[32m",
        Way::Inside => "\x1b[33m",
    }
}

/// What ends a colour.
#[tactic(auto, unfolding(crate::specs::Rungs::plain))]
fn plain(is_coloured: bool) -> &'static str
    ensures { result.now ≡ plain_of is_coloured }
{
    if is_coloured { "\x1b[0m" } else { "" }
}

/// Appends a way, and a remark.
#[tactic(auto, unfolding(crate::specs::Rungs::side))]
fn push_side(text: &mut String, is_coloured: bool, way: Way, remark: &str) -> Result<(), AllocError>
    ensures { OnOk result (string_bytes text.new
        ≡ string_bytes text.old ++ side is_coloured way remark.now) }
{
    text.push_str(colour(is_coloured, way))?;
    text.push_str(way_text(way))?;
    text.push_str(remark)?;
    text.push_str(plain(is_coloured))
}

/// Appends the head of a line: the moment in milliseconds, the way, and a remark.
#[tactic(auto, unfolding(crate::specs::Rungs::head))]
pub(crate) fn push_head(
    text: &mut String,
    is_coloured: bool,
    now: u64,
    way: Way,
    remark: &str,
) -> Result<(), AllocError>
    ensures { OnOk result (string_bytes text.new
        ≡ string_bytes text.old ++ head is_coloured now way remark.now) }
{
    write!(text, "{now}")?;
    text.push_str(" ")?;
    push_side(text, is_coloured, way, remark)?;
    text.push_str("  ")
}

/// Why a connection is closed.
fn close_text(cause: Close) -> &'static str
    ensures { result.now ≡ close_words cause }
{
    match cause {
        Close::Grammar => "closes: octets that begin no APDU",
        Close::SendNumber => "closes: a wrong send number",
        Close::ReceiveNumber => "closes: a wrong receive number",
        Close::Stopped => "closes: an I frame while stopped",
        Close::Timeout => "closes: no acknowledgement for t1",
        Close::OwnAnswers => "closes: no place for an answer",
        Close::Replaced => "closes: a new connection",
    }
}

fn way_of(action: &Action<'_>) -> Way
    ensures { result ≡ way_of_output (output_of action.now) }
{
    match action {
        Action::Line(_) => Way::ToOutstation,
        Action::Tcp(_) | Action::Close(_) => Way::ToCentre,
        Action::Gap { .. } => Way::Inside,
    }
}

/// The words of an action, with a line feed.
fn action_words(alloc: Global, style: &Style, action: &Action<'_>) -> Result<String, AllocError>
    ensures { IfOk result (λ words.
        AreActionWords style.now.sizes (output_of action.now) (string_bytes words)) }
{
    match action {
        Action::Line(octets) => Ok(words_of_line(alloc, style.sizes, octets)?.lines),
        Action::Tcp(octets) => Ok(words_of_connection(alloc, octets)?.lines),
        Action::Close(cause) => close_line(alloc, *cause),
        Action::Gap { station, session } => gap_line(alloc, *station, *session),
    }
}

fn close_line(alloc: Global, cause: Close) -> Result<String, AllocError>
    ensures { IfOk result (λ words. string_bytes words ≡ close_words cause ++ 10 ∷ []) }
{
    let mut words = String::from_str(alloc, close_text(cause))?;
    words.push_str("\n")?;
    Ok(words)
}

fn gap_line(alloc: Global, station: usize, session: u64) -> Result<String, AllocError>
    ensures { IfOk result (λ words. string_bytes words ≡ gap_text station session ++ 10 ∷ []) }
{
    let mut words = String::new(alloc);
    push_station(&mut words, station as u128 + 1)?;
    push_session(&mut words, session)?;
    words.push_str("\n")?;
    Ok(words)
}

#[tactic(auto, unfolding(crate::specs::Rungs::station_text))]
fn push_station(words: &mut String, number: u128) -> Result<(), AllocError>
    ensures { OnOk result (string_bytes words.new
        ≡ string_bytes words.old ++ station_text number) }
{
    write!(words, "gap: station {number}")
}

#[tactic(auto, unfolding(crate::specs::Rungs::session_text))]
fn push_session(words: &mut String, session: u64) -> Result<(), AllocError>
    ensures { OnOk result (string_bytes words.new
        ≡ string_bytes words.old ++ session_text session) }
{
    write!(words, ", session {session}")
}

/// Appends the line of an action, with a remark.
pub(crate) fn push_action(
    alloc: Global,
    text: &mut String,
    style: &Style,
    now: u64,
    action: &Action<'_>,
    remark: &str,
) -> Result<(), AllocError>
    ensures { OnOk result ((line : List ℕ) × (string_bytes text.new ≡ string_bytes text.old ++ line)
        × IsActionLine style.now.sizes style.now.is_coloured now remark.now
        (output_of action.now) line) }
{
    let words = action_words(alloc, style, action)?;
    push_head(text, style.is_coloured, now, way_of(action), remark)?;
    text.push_str(words.as_str())
}

/// A remark on an answer that nobody waits for.
fn late_remark(is_late: bool) -> &'static str
    ensures { result.now ≡ late_of is_late }
{
    if is_late { ", late" } else { "" }
}

/// A remark on what is received from the line.
fn received_remark(is_late: bool, arrived: &Received) -> &'static str
    ensures { result.now ≡ remark_of is_late arrived.now }
{
    match arrived {
        Received::Frame(_) => late_remark(is_late),
        Received::More => "",
        Received::Never(..) | Received::Deaf => ", spoilt",
    }
}

/// Appends what so many octets of a piece of the line bring.
#[tactic(auto, unfolding(crate::specs::Rungs::received_words))]
fn push_received_words(
    alloc: Global,
    text: &mut String,
    style: &Style,
    octets: usize,
    arrived: &Received,
) -> Result<(), AllocError>
    ensures { OnOk result (string_bytes text.new
        ≡ string_bytes text.old ++ received_words style.now.sizes octets arrived.now) }
{
    match arrived {
        Received::Frame(frame) => {
            push_line_frame(alloc, text, style.sizes, frame.lent())?;
            Ok(())
        }
        Received::Never(place, why) => push_line_refusal(text, *place, *why),
        Received::More | Received::Deaf => push_cut_off(text, octets),
    }
}

/// Appends the line of what so many octets of a piece of the line bring.
#[tactic(auto, unfolding(crate::specs::Rungs::received_line))]
pub(crate) fn push_received(
    alloc: Global,
    text: &mut String,
    style: &Style,
    is_late: bool,
    now: u64,
    octets: usize,
    arrived: &Received,
) -> Result<(), AllocError>
    ensures { OnOk result (string_bytes text.new ≡ string_bytes text.old
        ++ received_line style.now.sizes style.now.is_coloured is_late now octets arrived.now) }
{
    let remark = received_remark(is_late, arrived);
    push_head(text, style.is_coloured, now, Way::FromOutstation, remark)?;
    push_received_words(alloc, text, style, octets, arrived)?;
    text.push_str("\n")
}
