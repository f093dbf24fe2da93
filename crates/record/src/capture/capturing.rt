//! A record as a capture, line by line.
ghost use Rattle.std.specs.Prelude.{◌≡◌, ◌++◌, ◌∷◌, ◌≤◌, ◌<◌, ◌^◌, [], length, IfOk, OnOk};
ghost use Rattle.gateway.specs.Entries.{FitsPort, event_of, logged_of};
ghost use Rattle.session.specs.declared.kinds.Close.TheVariants.{Replaced};
ghost use Rattle.record.specs.Blocks.{file_header};
ghost use Rattle.record.specs.Captures.{after, after_line, begun, blocks_of};
ghost use Rattle.record.specs.Captures.{close_comment as comment_of, ended, last_packets};
ghost use Rattle.record.specs.Captures.{line_blocks, packets_of};
ghost use Rattle.record.specs.Clocks.{micros_of};
ghost use Rattle.record.specs.Connections.{Opens, Carries, Closes, Cuts, after as after_deed};
ghost use Rattle.record.specs.Connections.{after_deeds, sent_at, sent_blocks, sent_in};
ghost use Rattle.record.specs.Entries.{FitsPacket};
ghost use Rattle.record.specs.Recorded.{is_line};

use super::clock::Clock;
use super::connection::Connection;
use super::entry::read_entry;
use super::pcapng::put_file_header;
use super::wire::Wire;
use ft12::LinkSize;
use gateway::{Entry, StoredEntry};
use session::Close;
use std::alloc::{AllocError, Global};
use std::marker::Model;
use traces::{Page, is_skipped};

/// Makes the packets of a capture of the lines of a record. It keeps the state of the connection
/// and of the line, and nothing of the lines before.
#[derive(Drop)]
pub struct Capture {
    alloc: Global,
    wire: Wire,
    connection: Connection,
    clock: Clock,
    /// The packet of the connection that is being put together.
    packet: Page,
}

impl Model for Capture {
    ghost use Rattle.record.specs.Captures.{Captured};

    ghost Value = { Captured };

    ghost view = { λ c. record {
      connection = c.connection;
      line = c.wire;
      clock = c.clock;
    } };
}

/// What a connection is closed for.
fn close_comment(cause: Close) -> &'static str
    ensures comment { result.now ≡ comment_of cause }
    ensures bound { length result.now < 2 ^ 16 }
{
    match cause {
        Close::Grammar => "closed: octets that begin no APDU",
        Close::SendNumber => "closed: a wrong send number",
        Close::ReceiveNumber => "closed: a wrong receive number",
        Close::Stopped => "closed: an I frame while stopped",
        Close::Timeout => "closed: no acknowledgement for t1",
        Close::OwnAnswers => "closed: no place for an answer",
        Close::Replaced => "closed: a new connection",
    }
}

impl Capture {
    /// One of a line with link addresses of this size, before the first line.
    pub fn new(alloc: Global, link: LinkSize) -> Capture
        ensures { result ≡ begun link }
    {
        Capture {
            alloc,
            wire: Wire::new(alloc, link),
            connection: Connection::NONE,
            clock: Clock::BEGUN,
            packet: Page::new(alloc),
        }
    }

    /// Puts what a capture begins with.
    pub fn begin(&self, page: &mut Page) -> Result<(), AllocError>
        ensures { OnOk result (page.new ≡ page.old ++ file_header) }
    {
        put_file_header(page)
    }

    /// Puts the packets of a line. `false` says that the line is neither an event nor an action,
    /// nor empty or a comment; then nothing was put. An `Err` is want of memory.
    pub fn add_line(&mut self, page: &mut Page, line: &[u8]) -> Result<bool, AllocError>
        ensures line { IfOk result (λ is. is ≡ is_line line.now) }
        ensures put { OnOk result (page.new ≡ page.old ++ line_blocks self.old line.now) }
        ensures after { OnOk result (self.new ≡ after_line self.old line.now) }
    {
        if is_skipped(line) {
            return Ok(true);
        }
        match read_entry(self.alloc, line)? {
            Some(logged) => {
                self.add(page, &logged)?;
                Ok(true)
            }
            None => Ok(false),
        }
    }

    /// Puts what came of the line and is no whole frame. An `Err` is want of memory.
    pub fn end(&mut self, page: &mut Page) -> Result<(), AllocError>
        ensures put { OnOk result (page.new ≡ page.old ++ blocks_of (last_packets self.old)) }
        ensures after { OnOk result (self.new ≡ ended self.old) }
    {
        self.wire.flush(page, self.clock.micros())
    }

    /// Puts the packets of an event or an action.
    fn add(&mut self, page: &mut Page, logged: &StoredEntry) -> Result<(), AllocError>
        requires { FitsPacket logged.now }
        ensures put { OnOk result (page.new
            ≡ page.old ++ blocks_of (packets_of self.old (logged_of logged.now))) }
        ensures after { OnOk result (self.new ≡ after self.old (logged_of logged.now)) }
    {
        match logged {
            StoredEntry::Came(entry) => self.add_event(page, entry),
            StoredEntry::Line(_, octets) => self
                .wire
                .ask(page, self.clock.micros(), octets.as_slice()),
            StoredEntry::Tcp(_, octets) => self.carry(page, true, octets.as_slice()),
            // The connection whose place a new one took is closed already.
            StoredEntry::Close(_, Close::Replaced) => Ok(()),
            StoredEntry::Close(_, cause) => self.close(page, *cause),
            StoredEntry::Gap(_, station, session) => {
                self.wire.gap(page, self.clock.micros(), *station, *session)
            }
        }
    }

    /// Puts the packets of an event.
    fn add_event(&mut self, page: &mut Page, entry: &Entry) -> Result<(), AllocError>
        requires { FitsPort entry.now }
        ensures put { OnOk result (page.new
            ≡ page.old ++ blocks_of (packets_of self.old (event_of entry.now))) }
        ensures after { OnOk result (self.new ≡ after self.old (event_of entry.now)) }
    {
        match entry {
            Entry::Line(now, octets) => {
                self.clock = self.clock.moved(*now);
                self.wire
                    .receive_line(page, self.clock.micros(), octets.as_slice())
            }
            Entry::Open(now) => {
                self.clock = self.clock.moved(*now);
                self.open(page)
            }
            Entry::Bytes(now, octets) => {
                self.clock = self.clock.moved(*now);
                self.carry(page, false, octets.as_slice())
            }
            Entry::Cut(now) => {
                self.clock = self.clock.moved(*now);
                self.cut(page)
            }
            Entry::Tick(now) => {
                self.clock = self.clock.moved(*now);
                Ok(())
            }
            Entry::Wall(now, number) => {
                self.clock = self.clock.moved(*now).shown(*number);
                Ok(())
            }
        }
    }

    /// Octets go from the gateway (up), or come to it.
    fn carry(&mut self, page: &mut Page, is_up: bool, octets: &[u8]) -> Result<(), AllocError>
        requires { length octets.now ≤ 1024 }
        ensures put { OnOk result (page.new ≡ page.old ++ sent_blocks (micros_of self.old.clock)
            (sent_at self.old.connection (Carries is_up octets.now))) }
        ensures after { OnOk result (self.new ≡ record self.old {
          connection
              = after_deed self.old.connection (Carries is_up octets.now);
        }) }
    {
        let micros = self.clock.micros();
        let before = self.connection;
        self.connection = before.carry(page, &mut self.packet, micros, is_up, octets)?;
        Ok(())
    }

    /// The gateway closes the connection.
    fn close(&mut self, page: &mut Page, cause: Close) -> Result<(), AllocError>
        ensures put { OnOk result (page.new ≡ page.old ++ sent_blocks (micros_of self.old.clock)
            (sent_at self.old.connection (Closes (comment_of cause)))) }
        ensures after { OnOk result (self.new ≡ record self.old {
          connection
              = after_deed self.old.connection (Closes (comment_of cause));
        }) }
    {
        let micros = self.clock.micros();
        let comment = close_comment(cause);
        let before = self.connection;
        self.connection = before.close(page, &mut self.packet, micros, comment.as_bytes())?;
        Ok(())
    }

    /// The control centre opens a connection, in the place of the one that there is.
    fn open(&mut self, page: &mut Page) -> Result<(), AllocError>
        ensures put { OnOk result (page.new ≡ page.old ++ sent_blocks (micros_of self.old.clock)
            (sent_in self.old.connection (Closes (comment_of Replaced) ∷ Opens ∷ []))) }
        ensures after { OnOk result (self.new ≡ record self.old {
          connection
              = after_deeds self.old.connection (Closes (comment_of Replaced) ∷ Opens ∷ []);
        }) }
    {
        self.close(page, Close::Replaced)?;
        let micros = self.clock.micros();
        let before = self.connection;
        self.connection = before.open(page, &mut self.packet, micros)?;
        Ok(())
    }

    /// The connection is cut.
    fn cut(&mut self, page: &mut Page) -> Result<(), AllocError>
        ensures put { OnOk result (page.new ≡ page.old ++ sent_blocks (micros_of self.old.clock)
            (sent_at self.old.connection Cuts)) }
        ensures after { OnOk result (self.new ≡ record self.old {
          connection
              = after_deed self.old.connection Cuts;
        }) }
    {
        let micros = self.clock.micros();
        let before = self.connection;
        self.connection = before.cut(page, &mut self.packet, micros)?;
        Ok(())
    }
}
