//! The state that a gateway has between two steps, as lines.
ghost use Rattle.std.specs.Prelude.{◌≡◌, ◌++◌, OnOk};
ghost use Rattle.gateway.specs.State.{IsBetweenSteps};
ghost use Rattle.gateway.specs.Restored.{clock_line, tally_line, serial_lines, centre_lines};
ghost use Rattle.gateway.specs.Restored.{state_lines};
ghost use Rattle.gateway.specs.Restored.{IsSavableSerial, IsSavableCentre, IsSavable};

use super::Gateway;
use super::centre::CentreSide;
use super::serial::SerialSide;
use crate::counts::Tally;
use checkpoint::{Sheet, StateFault};
use std::alloc::AllocError;

impl Tally {
    /// Puts the numbers behind a line.
    fn put(&self, line: &mut Vec<u64>) -> Result<(), AllocError>
        ensures { OnOk result (line.new.items ≡ line.old.items ++ tally_line self.now) }
    {
        line.push(self.skipped)?;
        line.push(self.mirrors)?;
        line.push(self.lost)?;
        Ok(())
    }
}

impl SerialSide {
    /// Puts the lines of what is counted, of the line and of commands.
    fn put_state<S: Sheet>(&self, sheet: &mut S, line: &mut Vec<u64>) -> Result<(), StateFault>
        ensures lines { OnOk result (S.written sheet.new
            ≡ S.written sheet.old ++ serial_lines self.now) }
        ensures savable { OnOk result (IsSavableSerial self.now) }
    {
        line.clear();
        self.counts.put(line)?;
        sheet.put(line.as_slice())?;
        self.line.put_state(sheet, line)?;
        self.commands.put_state(sheet, line)
    }
}

impl CentreSide {
    /// Puts the lines of the octets of an APDU that isn't whole, of the session and of the queue.
    fn put_state<S: Sheet>(&self, sheet: &mut S, line: &mut Vec<u64>) -> Result<(), StateFault>
        ensures lines { OnOk result (S.written sheet.new
            ≡ S.written sheet.old ++ centre_lines self.now) }
        ensures savable { OnOk result (IsSavableCentre self.now) }
    {
        line.clear();
        self.assembler.put_so_far(line)?;
        sheet.put(line.as_slice())?;
        self.session.put_state(sheet, line)?;
        self.queue.put_state(sheet, line)
    }
}

impl Gateway {
    /// Puts the moment, and what the wall clock gave last, behind a line.
    fn put_clock(&self, line: &mut Vec<u64>) -> Result<(), AllocError>
        ensures { OnOk result (line.new.items ≡ line.old.items ++ clock_line self.now) }
    {
        line.push(self.moment)?;
        if let Some(wall) = self.wall {
            line.push(wall.moment)?;
            line.push(wall.number)?;
        }
        Ok(())
    }

    /// Puts the state that the gateway has between two steps as lines, all but the settings:
    /// [`Gateway::read_state`] makes it again of them. `line` is used on the way.
    pub fn put_state<S: Sheet>(&self, sheet: &mut S, line: &mut Vec<u64>) -> Result<(), StateFault>
        ensures lines { OnOk result (S.written sheet.new
            ≡ S.written sheet.old ++ state_lines self.now) }
        // A gateway is between two steps when it follows a log (`steps_leave_nothing_open`).
        ensures savable { IsBetweenSteps self.now → OnOk result (IsSavable self.now) }
    {
        line.clear();
        self.put_clock(line)?;
        sheet.put(line.as_slice())?;
        self.serial.put_state(sheet, line)?;
        self.centre.put_state(sheet, line)
    }
}
