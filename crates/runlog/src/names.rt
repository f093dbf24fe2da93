//! What a site calls its line and its stations, and lines with these names.
ghost use Rattle.std.specs.List.{find};
ghost use Rattle.std.specs.Prelude.{◌==◌, ◌≡◌, Some, option_map};
ghost use Rattle.std.specs.Fmt.{WritesOnOk};
ghost use Rattle.runlog.specs.Names as spec;

use crate::note::{LogLine, Note};
use std::fmt;

/// What a site calls the station with this link address: up to 40 characters.
#[derive(Clone, Copy)]
pub struct NamedStation<'a> {
    pub link: u16,
    pub name: &'a str,
}

/// What a site calls its line, if it has a name, and its stations.
#[derive(Clone, Copy)]
pub struct LogNames<'a> {
    pub line: Option<&'a str>,
    pub stations: &'a [NamedStation<'a>],
}

/// What a line is about.
#[derive(Clone, Copy, PartialEq, Eq)]
pub enum Subject {
    Line,
    /// The station with this link address.
    Station(u16),
    Other,
}

/// What this is about.
pub fn subject_of(note: &Note) -> Subject
    ensures { result ≡ spec.subject_of note.now }
{
    match note {
        Note::LineReached | Note::LineReachedAgain => Subject::Line,
        Note::LineLost(_) | Note::LineNotThere(_) | Note::LineSilent => Subject::Line,
        Note::Asked(address) | Note::Up(address) | Note::Silent(address) => {
            Subject::Station(*address)
        }
        Note::Again(address) | Note::Down(address) | Note::Gap(address) => {
            Subject::Station(*address)
        }
        Note::MirrorDropped(address) | Note::Spoilt(address, _) | Note::Late(address, _) => {
            Subject::Station(*address)
        }
        Note::StillSilent(address) => Subject::Station(*address),
        Note::Fate(_, station, _) | Note::Skipped(station, _, _) => Subject::Station(*station),
        _ => Subject::Other,
    }
}

/// The name of the station with this link address, if it has one.
pub fn name_of<'a>(stations: &[NamedStation<'a>], link: u16) -> Option<&'a str>
    ensures { option_map (λ s. s.now) result ≡ spec.name_in link stations.now }
{
    match stations.iter().find(|station| station.link == link) {
        Some(station) => Some(station.name),
        None => None,
    }
}

impl<'a> LogNames<'a> {
    /// The name of what this is about, if that has one.
    fn name_for(&self, note: &Note) -> Option<&'a str>
        ensures { option_map (λ s. s.now) result ≡ spec.name_for self.now note.now }
    {
        match subject_of(note) {
            Subject::Line => self.line,
            Subject::Station(link) => name_of(self.stations, link),
            Subject::Other => None,
        }
    }
}

/// A line of the log, with the name of what it is about behind it, if that has one.
#[derive(Clone, Copy)]
pub struct NamedLine<'l, 'n> {
    pub line: &'l LogLine,
    pub names: LogNames<'n>,
}

fn write_name<W: fmt::Write>(name: Option<&str>, f: &mut fmt::Formatter<W>) -> fmt::Result
    ensures { WritesOnOk W.write_str_gives f.old result
        (spec.name_words (option_map (λ s. s.now) name.entry)) f.new }
{
    match name {
        Some(name) => write!(f, " [{name}]"),
        None => Ok(()),
    }
}

impl fmt::Display for NamedLine<'_, '_> {
    ghost output = { λ named. Some (spec.named_text named.names named.line.now) };

    fn fmt<W: fmt::Write>(&self, f: &mut fmt::Formatter<W>) -> fmt::Result {
        let NamedLine { line, names } = *self;
        write!(f, "{line}")?;
        write_name(names.name_for(&line.note), f)
    }
}
