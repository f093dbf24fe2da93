//! The state of a primary station is put as lines of numbers.
ghost use Rattle.std.specs.Prelude.{◌≡◌, ◌++◌, OnOk};
ghost use Rattle.link.specs.Restored.{phase_numbers, asked_numbers, head_numbers};
ghost use Rattle.link.specs.Restored.{awaited_numbers, received_numbers, primary_lines};
ghost use Rattle.link.specs.Restored.{FitsSavedPhase, FitsSavedAsked, FitsSavedOutstanding};
ghost use Rattle.link.specs.Restored.{ReceivedIsResumable, ReceivedAreOctets, IsSavable};

use super::Master;
use crate::saving::{bit_number, put_service, put_stations};
use crate::service::Asked;
use crate::turn::Phase;
use checkpoint::{Sheet, StateFault};
use std::alloc::AllocError;

/// Puts how far the turn is behind a line of numbers.
fn put_phase(phase: Phase, line: &mut Vec<u64>) -> Result<(), AllocError>
    ensures line { OnOk result (line.new.items ≡ line.old.items ++ phase_numbers phase) }
    ensures fits { FitsSavedPhase phase }
{
    match phase {
        Phase::Starting => line.push(0)?,
        Phase::Commanding => line.push(1)?,
        Phase::Polling => line.push(2)?,
        Phase::Class1Polling(sent) => {
            line.push(3)?;
            line.push(u64::from(sent))?;
        }
        Phase::Over => line.push(4)?,
    }
    Ok(())
}

/// Puts what a request asks for behind a line of numbers.
fn put_asked(asked: &Asked, line: &mut Vec<u64>) -> Result<(), AllocError>
    ensures line { OnOk result (line.new.items ≡ line.old.items ++ asked_numbers asked.now) }
    ensures fits { OnOk result (FitsSavedAsked asked.now) }
{
    match asked {
        Asked::Status => line.push(0)?,
        Asked::Reset => line.push(1)?,
        Asked::Counted(fcb, service) => {
            line.push(2)?;
            line.push(bit_number(*fcb))?;
            put_service(service, line)?;
        }
    }
    Ok(())
}

impl Master {
    /// Puts the first line: whose turn it is and how far, and the count of spoilt exchanges.
    fn put_head(&self, line: &mut Vec<u64>) -> Result<(), AllocError>
        ensures line { OnOk result (line.new.items ≡ line.old.items ++ head_numbers self.now) }
        ensures fits { OnOk result (FitsSavedPhase self.now.phase) }
    {
        line.push(self.turn as u64)?;
        line.push(bit_number(self.again))?;
        line.push(self.spoilt)?;
        put_phase(self.phase, line)
    }

    /// Puts the third line: the request that is outstanding.
    fn put_awaited(&self, line: &mut Vec<u64>) -> Result<(), AllocError>
        ensures line { OnOk result (line.new.items
            ≡ line.old.items ++ awaited_numbers self.now.outstanding) }
        ensures fits { OnOk result (FitsSavedOutstanding self.now.outstanding) }
    {
        match &self.outstanding {
            None => line.push(0)?,
            Some(awaited) => {
                line.push(1)?;
                line.push(awaited.since)?;
                line.push(bit_number(awaited.has_octets))?;
                put_asked(&awaited.request, line)?;
            }
        }
        Ok(())
    }

    /// Puts the second line: the octets so far of the outstanding answer.
    fn put_received(&self, line: &mut Vec<u64>) -> Result<(), AllocError>
        ensures line { OnOk result (line.new.items
            ≡ line.old.items ++ received_numbers self.now.outstanding) }
        ensures beginning { ReceivedIsResumable self.now self.now.outstanding }
        ensures octets { ReceivedAreOctets self.now.outstanding }
    {
        self.assembler.is_resumable();
        match &self.outstanding {
            None => line.push(0)?,
            Some(awaited) => {
                // What a deaf exchange got isn't looked at any more.
                if awaited.deaf {
                    line.push(0)?;
                } else {
                    self.assembler.put_so_far(line)?;
                }
            }
        }
        Ok(())
    }

    /// Puts its state as lines of numbers: what `read_state` makes it from again. `line` is a place
    /// for one line. The settings and how many stations there are aren't in the lines.
    pub fn put_state<S: Sheet>(&self, sheet: &mut S, line: &mut Vec<u64>) -> Result<(), StateFault>
        ensures lines { OnOk result (S.written sheet.new
            ≡ S.written sheet.old ++ primary_lines self.now) }
        ensures savable { OnOk result (IsSavable self.now) }
    {
        line.clear();
        self.put_head(line)?;
        sheet.put(line.as_slice())?;
        line.clear();
        self.put_received(line)?;
        sheet.put(line.as_slice())?;
        line.clear();
        self.put_awaited(line)?;
        sheet.put(line.as_slice())?;
        put_stations(self.stations.as_slice(), sheet, line)
    }
}
