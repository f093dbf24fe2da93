//! A control centre over a stream of octets, with what passes on a page.
ghost use Rattle.std.specs.Prelude.{◌≡◌, ◌≤◌, ◌<◌, IfOk, None, OnOk, Some, [], length};
ghost use Rattle.std.specs.Prelude.{string_bytes};
ghost use Rattle.apci.specs.Spelling.{Fits};
ghost use Rattle.centre.specs.Centres.{is_over};
ghost use Rattle.centre.specs.Desks.{HasReceived, HasSent, IsFrontTaken, IsPut, IsRound, IsTakenIn};
ghost use Rattle.centre.specs.Desks.{scene};

use crate::centre::Centre;
use crate::errand::{Loss, Outcome};
use crate::telling::{Style, Way, push_line};
use apci::{Apdu, Assembler, Received, encode};
use live::{Got, OctetStream};
use session::Close;
use std::alloc::{AllocError, Global};
use std::marker::Model;

/// How many APDUs go out at one moment at the most. What is due beyond goes out at the next one.
const MOST_SENT: u64 = 64;

/// A control centre at its connection.
#[derive(Drop)]
pub struct Desk<S: OctetStream + Drop> {
    alloc: Global,
    style: Style,
    stream: S,
    assembler: Assembler,
    centre: Centre,
}

impl<S: OctetStream + Drop> Model for Desk<S> {
    ghost use Rattle.centre.specs.Desks.{Desk as AsDesk};

    ghost Value = { AsDesk };

    ghost view = { λ d. record {
      style = d.style;
      stream = S.history d.stream;
      assembly = d.assembler;
      centre = d.centre;
    } };
}

impl<S: OctetStream + Drop> Desk<S> {
    /// This control centre at a connection that has just opened.
    pub fn new(alloc: Global, style: Style, stream: S, centre: Centre) -> Desk<S>
        ensures style { result.style ≡ style }
        ensures stream { result.stream ≡ S.history stream }
        ensures so_far { result.assembly.so_far ≡ Some [] }
        ensures centre { result.centre ≡ centre }
    {
        Desk {
            alloc,
            style,
            stream,
            assembler: Assembler::new(),
            centre,
        }
    }

    /// Whether all is done, or the connection is lost.
    pub fn is_over(&self) -> bool
        ensures { result ≡ is_over self.now.centre }
    {
        self.centre.is_over()
    }

    /// What became of the errand, once that is known.
    pub fn outcome(&self) -> Option<Outcome>
        ensures { result ≡ self.now.centre.errand.outcome }
    {
        self.centre.outcome()
    }

    /// The common addresses of which nothing has come, of those that a request to all waits for.
    pub fn silent(&self) -> &[u16]
        ensures { result.now ≡ self.now.centre.errand.silent }
    {
        self.centre.silent()
    }

    /// Looks at the connection once, takes what came, and sends what is due. Answers the text of
    /// what passed, with a line for each APDU.
    pub fn round(&mut self, now: u64) -> Result<String, AllocError>
        ensures { IfOk result (λ text. IsRound now (scene self.old [])
            (scene self.new (string_bytes text))) }
    {
        let mut text = String::new(self.alloc);
        self.look(now, &mut text)?;
        Ok(text)
    }

    /// The same, with the lines behind a text.
    fn look(&mut self, now: u64, text: &mut String) -> Result<(), AllocError>
        ensures { OnOk result (IsRound now (scene self.old (string_bytes text.old))
            (scene self.new (string_bytes text.new))) }
    {
        let mut buf = [0; 1024];
        match self.stream.read(&mut buf) {
            Got::Octets(len) => self.receive(&buf[..len], now, text)?,
            Got::Quiet => {}
            Got::Gone => self.centre.lose(Loss::Gone),
        }
        self.send(now, text)
    }

    /// Octets came, in any piece. What is due is sent behind each APDU among them. Octets that
    /// begin no APDU end the connection.
    fn receive(&mut self, octets: &[u8], now: u64, text: &mut String) -> Result<(), AllocError>
        ensures { OnOk result (HasReceived now octets.now (scene self.old (string_bytes text.old))
            (scene self.new (string_bytes text.new))) }
    {
        let mut left = octets;
        'apdus: while !left.is_empty() {
            let taken = self.receive_front(left, now, text)?;
            left = &left[taken..];
        }
        Ok(())
    }

    /// Takes octets up to the end of an APDU, or else all, and says how many.
    fn receive_front(
        &mut self,
        octets: &[u8],
        now: u64,
        text: &mut String,
    ) -> Result<usize, AllocError>
        requires { 1 ≤ length octets.now }
        ensures front { IfOk result (λ n. IsFrontTaken now octets.now n
            (scene self.old (string_bytes text.old))
            (scene self.new (string_bytes text.new))) }
        ensures within { IfOk result (λ n. n ≤ length octets.now) }
        ensures some { IfOk result (λ n. 1 ≤ n) }
    {
        let (taken, received) = self.assembler.feed(octets);
        match received {
            Received::Whole => {
                if let Some(apdu) = self.assembler.take() {
                    self.take_in(&apdu, now, text)?;
                }
            }
            Received::More => {}
            Received::Never(..) => self.centre.lose(Loss::Closed(Close::Grammar)),
            Received::Deaf => self.centre.lose(Loss::Closed(Close::Grammar)),
        }
        Ok(taken)
    }

    /// An APDU came.
    fn take_in(&mut self, apdu: &Apdu, now: u64, text: &mut String) -> Result<(), AllocError>
        ensures { OnOk result (IsTakenIn now apdu.now (scene self.old (string_bytes text.old))
            (scene self.new (string_bytes text.new))) }
    {
        push_line(
            self.alloc,
            text,
            self.style,
            Way::FromGateway,
            now,
            apdu.as_ref(),
        )?;
        self.centre.take(apdu, now);
        self.send(now, text)
    }

    /// Sends what is due at this moment.
    fn send(&mut self, now: u64, text: &mut String) -> Result<(), AllocError>
        ensures { OnOk result (HasSent now (scene self.old (string_bytes text.old))
            (scene self.new (string_bytes text.new))) }
    {
        'apdus: for _ in 0..MOST_SENT {
            let Some(apdu) = self.centre.next(now) else {
                return Ok(());
            };
            self.put(&apdu, now, text)?;
        }
        Ok(())
    }

    /// An APDU goes out.
    fn put(&mut self, apdu: &Apdu, now: u64, text: &mut String) -> Result<(), AllocError>
        requires { Fits apdu.now }
        ensures { OnOk result (IsPut now apdu.now (scene self.old (string_bytes text.old))
            (scene self.new (string_bytes text.new))) }
    {
        push_line(
            self.alloc,
            text,
            self.style,
            Way::FromCentre,
            now,
            apdu.as_ref(),
        )?;
        if !self.stream.write(encode(apdu).as_slice()) {
            self.centre.lose(Loss::Untaken);
        }
        Ok(())
    }
}
