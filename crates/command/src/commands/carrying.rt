//! Commands of a gateway that goes on with other settings.
ghost use Rattle.std.specs.Prelude.{◌≡◌, ◌≤◌, length, map, IfOk};
ghost use Rattle.command.specs.State.{cut_off};
ghost use Rattle.command.specs.Carried.{line_carried, carried};

use super::{Commands, NoMemory};
use crate::station::StationInfo;
use crate::waiting::Line;
use asdu::Sizes;
use std::alloc::Global;

/// The line once the connection of its command has ended.
fn cut(line: &Line) -> Line
    ensures { result ≡ cut_off line.now }
{
    match line {
        Line::Free => Line::Free,
        // It may act yet, but nobody is left to get its answer.
        Line::Holds(_) | Line::CutOff => Line::CutOff,
    }
}

/// What stands on the line of a station that had this place, if it had one.
fn line_carried(lines: &[Line], before: Option<usize>) -> Line
    ensures { result ≡ line_carried lines.now before }
{
    match before {
        Some(place) if place < lines.len() => cut(&lines[place]),
        _ => Line::Free,
    }
}

/// The lines of stations that had these places.
fn lines_carried(
    alloc: Global,
    lines: &[Line],
    before: &[Option<usize>],
) -> Result<Vec<Line>, NoMemory>
    ensures { IfOk result (λ kept. kept.items ≡ map (line_carried lines.now) before.now) }
{
    let mut kept = Vec::new(alloc);
    for place in before {
        let line = line_carried(lines, *place);
        kept.push(line).map_err(|_| NoMemory)?;
    }
    Ok(kept)
}

impl Commands {
    /// With these settings, of which `before` says of each station its index among those that there
    /// were, if it was one of them: what was put on its line and isn't done stays there, and has no
    /// connection any more. Nothing waits for the line, nothing is selected, and no own answer is
    /// left. It takes memory as [`Commands::new`] does.
    pub fn carried(
        &self,
        alloc: Global,
        stations: &[StationInfo],
        sizes: Sizes,
        select_ms: u64,
        max_age_ms: u64,
        before: &[Option<usize>],
    ) -> Result<Commands, NoMemory>
        requires few { length stations.now ≤ 32 }
        requires each { length before.now ≡ length stations.now }
        ensures { IfOk result (λ c. c ≡ carried stations.now sizes select_ms max_age_ms
            before.now self.now) }
    {
        let lines = lines_carried(alloc, self.lines.as_slice(), before)?;
        let mut commands = Commands::new(alloc, stations, sizes, select_ms, max_age_ms)?;
        commands.lines = lines;
        Ok(commands)
    }
}
