//! A visitor's seat: what was received of who sits there, and the answer on its way.
ghost use Rattle.std.specs.Prelude.{◌≡◌, ◌≤◌, ◌<◌, length, min, take, IfOk, IfSome, None};
ghost use Rattle.std.specs.Prelude.{Some};
ghost use Rattle.std.proofs.Props.{props};
ghost use Rattle.std.specs.Bool.{OnTrue};
ghost use Rattle.std.specs.Option.{ForSome, is_none, is_some};
ghost use Rattle.status.specs.Seats.{Answers, Turned, Receives, IsAsked, IsKept, IsNext, IsTurn};
ghost use Rattle.status.specs.Seats.{Hands, IsYoung, Looks};
ghost use Rattle.status.specs.Seats.{answer_on, cleared, fresh_desk};
ghost use Rattle.status.specs.Streams.{IsNew, more_passed};
ghost use Rattle.status.specs.Visits.{GivesMore, IsSeatTurn, place};

use crate::answer::make_answer;
use crate::page::TextPage;
use crate::request::{Inquiry, asked_of};
use crate::snapshot::Snapshot;
use crate::streams::{Stream, StreamLook, Took};
use std::alloc::{AllocError, Global};

/// How many octets a request may have.
const REQUEST_ROOM: usize = 8_192;

/// How many octets the head of an answer may have. The longest has fewer than 400.
const HEAD_ROOM: usize = 512;

/// How many octets the body of an answer may have.
// 32 stations with names of 40 characters, each of which is `&quot;`, and 40 settings need less.
const BODY_ROOM: usize = 65_536;

/// How many octets are handed to a stream at once at the most.
// So one turn holds the run up by little (docs/DECISIONS.md, "Who looks at the state").
const PIECE: usize = 16_384;

/// How long a visitor may stay, in ms.
// A visitor who hangs leaves soon (docs/DECISIONS.md, "Who looks at the state").
const STAY_MS: u64 = 2_000;

/// How far a visitor has come.
#[derive(Clone, Copy, PartialEq, Eq)]
pub(crate) enum VisitStage {
    /// The request is coming.
    Receiving,
    /// The answer is going out.
    Answering,
    /// The answer has gone out. What still comes is dropped until the visitor goes: a stream that
    /// is closed while octets wait in it takes the answer away from its reader.
    Leaving,
}

/// What lies on the desk: the request so far, and the answer. Its room is made once.
#[derive(Drop)]
pub(crate) struct Desk {
    request: TextPage,
    head: TextPage,
    body: TextPage,
}

/// The front of octets, as much as is handed to a stream at once.
fn piece_of(octets: &[u8]) -> &[u8]
    ensures { result.now ≡ take (min (length octets.entry.now) PIECE) octets.entry.now }
{
    &octets[..octets.len().min(PIECE)]
}

impl Desk {
    fn new(alloc: Global) -> Result<Desk, AllocError>
        ensures { IfOk result (λ desk. desk ≡ fresh_desk) }
    {
        Ok(Desk {
            request: TextPage::new(alloc, REQUEST_ROOM)?,
            head: TextPage::new(alloc, HEAD_ROOM)?,
            body: TextPage::new(alloc, BODY_ROOM)?,
        })
    }

    /// Takes all off the desk.
    fn clear(&mut self)
        ensures { self.new ≡ cleared self.old }
    {
        self.request.clear();
        self.head.clear();
        self.body.clear();
    }

    /// What is asked so far.
    fn asked(&self) -> Inquiry
        ensures { IsAsked self.now.request.text result }
    {
        match self.request.text() {
            Some(octets) => asked_of(octets),
            None => Inquiry::TooLong,
        }
    }

    /// What goes out next, if so many octets of the answer have gone out.
    fn next(&self, sent: usize) -> &[u8]
        requires { sent ≤ length (answer_on self.now) }
        ensures { IsNext (answer_on self.entry.now) sent result.now }
    {
        let head = self.head.octets();
        if sent < head.len() {
            piece_of(&head[sent..])
        } else {
            piece_of(&self.body.octets()[sent - head.len()..])
        }
    }
}

/// Receives more of a request. `false` says that the visitor has gone.
fn receive<S: Stream>(stream: &mut S, request: &mut TextPage) -> bool
    ensures given { Receives (S.given stream.old) request.old (S.given stream.new) request.new }
    ensures taken { S.taken stream.new ≡ S.taken stream.old }
    ensures looks { Looks (S.calls stream.old) (S.calls stream.new) result }
{
    let mut octets = [0; 1024];
    match stream.read(&mut octets) {
        StreamLook::Octets(len) => {
            request.put(&octets[..len]);
            true
        }
        StreamLook::Quiet => true,
        StreamLook::Gone => false,
    }
}

/// Drops what still comes. `false` says that the visitor has gone.
fn drain<S: Stream>(stream: &mut S) -> bool
    ensures given { GivesMore (S.given stream.old) (S.given stream.new) }
    ensures taken { S.taken stream.new ≡ S.taken stream.old }
    ensures looks { Looks (S.calls stream.old) (S.calls stream.new) result }
{
    let mut octets = [0; 1024];
    !matches!(stream.read(&mut octets), StreamLook::Gone)
}

/// Hands a stream octets, and answers how many it took; none if it is broken.
fn send<S: Stream>(stream: &mut S, octets: &[u8]) -> Option<usize>
    ensures fits { IfSome result (λ count. count ≤ length octets.now) }
    ensures taken { IfSome result (λ count.
        S.taken stream.new ≡ more_passed (S.taken stream.old) (take count octets.now)) }
    ensures given { S.given stream.new ≡ S.given stream.old }
    ensures hands { Hands (S.calls stream.old) (S.calls stream.new) (is_some result) }
{
    match stream.write(octets) {
        Took::Octets(count) => Some(count),
        Took::Nothing => None,
    }
}

/// Who sits there.
#[derive(Drop)]
struct Client<S: Stream> {
    stream: S,
    /// When the visitor came.
    since_ms: u64,
    stage: VisitStage,
    /// How many octets of the answer the stream has taken.
    sent: usize,
}

/// Receives more of the request, and makes its answer when it has come whole.
fn receive_more<S: Stream>(client: &mut Client<S>, desk: &mut Desk, snapshot: &Snapshot<'_>) -> bool
    requires stage { client.old.stage ≡ VisitStage.Receiving }
    requires kept { IsKept (S.given client.old.stream) (S.taken client.old.stream)
        client.old.stage client.old.sent desk.old }
    ensures kept { OnTrue result (IsKept (S.given client.new.stream) (S.taken client.new.stream)
        client.new.stage client.new.sent desk.new) }
    ensures since { client.new.since_ms ≡ client.old.since_ms }
    ensures gives { GivesMore (S.given client.old.stream) (S.given client.new.stream) }
    ensures answers { OnTrue result (Answers client.new.stage snapshot.now desk.old desk.new) }
    ensures turn { IsTurn (S.calls client.old.stream) (S.calls client.new.stream) client.old.stage
        client.new.stage result desk.old }
{
    if !receive(&mut client.stream, &mut desk.request) {
        return false;
    }
    match desk.asked() {
        Inquiry::Nothing => {}
        asked => {
            make_answer(&mut desk.head, &mut desk.body, asked, snapshot);
            client.stage = VisitStage::Answering;
        }
    }
    true
}

/// Sends more of the answer.
fn send_more<S: Stream>(client: &mut Client<S>, desk: &Desk) -> bool
    requires stage { client.old.stage ≡ VisitStage.Answering }
    requires kept { IsKept (S.given client.old.stream) (S.taken client.old.stream)
        client.old.stage client.old.sent desk.now }
    ensures kept { OnTrue result (IsKept (S.given client.new.stream) (S.taken client.new.stream)
        client.new.stage client.new.sent desk.now) }
    ensures since { client.new.since_ms ≡ client.old.since_ms }
    ensures gives { GivesMore (S.given client.old.stream) (S.given client.new.stream) }
    ensures turn { IsTurn (S.calls client.old.stream) (S.calls client.new.stream) client.old.stage
        client.new.stage result desk.now }
{
    let piece = desk.next(client.sent);
    if piece.is_empty() {
        client.stream.finish();
        client.stage = VisitStage::Leaving;
        return true;
    }
    let Some(count) = send(&mut client.stream, piece) else {
        return false;
    };
    if usize::MAX - client.sent < count {
        // No answer is that long.
        return false;
    }
    client.sent += count;
    true
}

/// Reads once, or writes once. `false` says that the visitor has gone.
fn take_turn<S: Stream>(client: &mut Client<S>, desk: &mut Desk, snapshot: &Snapshot<'_>) -> bool
    requires kept { IsKept (S.given client.old.stream) (S.taken client.old.stream)
        client.old.stage client.old.sent desk.old }
    ensures kept { OnTrue result (IsKept (S.given client.new.stream) (S.taken client.new.stream)
        client.new.stage client.new.sent desk.new) }
    ensures since { client.new.since_ms ≡ client.old.since_ms }
    ensures gives { GivesMore (S.given client.old.stream) (S.given client.new.stream) }
    ensures answers { OnTrue result (Turned client.old.stage client.new.stage snapshot.now
        desk.old desk.new) }
    ensures turn { IsTurn (S.calls client.old.stream) (S.calls client.new.stream) client.old.stage
        client.new.stage result desk.old }
{
    match client.stage {
        VisitStage::Receiving => receive_more(client, desk, snapshot),
        VisitStage::Answering => send_more(client, desk),
        VisitStage::Leaving => drain(&mut client.stream),
    }
}

/// A seat, and who sits there, if anybody does. What a visitor was written is a beginning of the
/// answer on the desk of that seat, in its order.
#[derive(Drop)]
pub(crate) struct Seat<S: Stream> {
    client: Option<Client<S>>,
    desk: Desk,
    ghost kept: { ForSome client (λ g. IsKept (S.Stream.given g.stream) (S.Stream.taken g.stream)
        g.stage g.sent desk) } by { Prim.hlevel props },
}

impl<S: Stream> Seat<S> {
    /// A free seat.
    pub(crate) fn new(alloc: Global) -> Result<Seat<S>, AllocError>
        ensures client { IfOk result (λ seat. seat.client ≡ None) }
        ensures desk { IfOk result (λ seat. seat.desk ≡ fresh_desk) }
    {
        Ok(Seat {
            client: None,
            desk: Desk::new(alloc)?,
        })
    }

    /// Nobody sits there.
    pub(crate) fn is_free(&self) -> bool
        ensures { result ≡ is_none self.now.client }
    {
        self.client.is_none()
    }

    /// Somebody comes.
    pub(crate) fn admit(&mut self, stream: S, now_ms: u64)
        requires given { IsNew (S.given stream) }
        requires taken { IsNew (S.taken stream) }
        ensures here { self.new.client ≡ Some (record {
          stream = stream;
          since_ms = now_ms;
          stage = VisitStage.Receiving;
          sent = 0;
        }) }
        ensures clear { self.new.desk ≡ cleared self.old.desk }
    {
        self.client = None;
        self.desk.clear();
        self.client = Some(Client {
            stream,
            since_ms: now_ms,
            stage: VisitStage::Receiving,
            sent: 0,
        });
    }

    /// Reads once, or writes once. Who has been there for two seconds goes.
    pub(crate) fn turn(&mut self, now_ms: u64, snapshot: &Snapshot<'_>)
        ensures young { ForSome self.new.client (λ g. IsYoung now_ms g.since_ms) }
        ensures turned { IsSeatTurn S.given S.taken S.calls now_ms snapshot.now
            (place self.old.client self.old.desk) (place self.new.client self.new.desk) }
    {
        // Who isn't put back is gone: dropping the stream closes it.
        let Some(mut client) = self.client.take() else {
            return;
        };
        // Before the turn: who sends an octet now and then would stay for good.
        if STAY_MS <= now_ms.saturating_sub(client.since_ms) {
            return;
        }
        if take_turn(&mut client, &mut self.desk, snapshot) {
            self.client = Some(client);
        }
    }
}
