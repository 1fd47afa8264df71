//! A session: messages, answered one after the other.

ghost use Rattle.std.specs.Prelude.{◌≡◌, ◌<◌, ◌≤◌, ℕ, List, [], ◌++◌, length, codes, bytes_eq, None, Some, Ok, Err, IfOk, IfErr, OnOk, OnErr, is_some};
ghost use Rattle.std.specs.List.{concat};
ghost use Rattle.nf_base.specs.declared.limits.TheConstants.{MAX_HEAD};
ghost use Rattle.nf_http.specs.Bodies.{CutsBody, CutsRead};
ghost use Rattle.nf_outside.specs.Lent.{takes};
ghost use Rattle.nf_words.specs.declared.answer.Goal.TheVariants.{Serve};
ghost use Rattle.nf_routes.specs.Targets.{is_ocs as begins_with_ocs};
ghost use Rattle.nf_session.specs.Book.{MayEnd, held};
ghost use Rattle.nf_session.specs.Connections.{between, scene, IsSame};
ghost use Rattle.nf_session.specs.Files.{IsResponding, IsStarted, SendsFile, SendsPiece, TakesPiece, file_front, taken_first};
ghost use Rattle.nf_session.specs.Steps.{IsClosing, Heads, Bodies, Cuts, Skips, TakesEarly, Judges, IsBegun, Invites, Passes, TakesIn, StoresBody, StartsFile, Says, Sends, Closes, EndsBy, EndsSo, skipped_length, stored_length};
ghost use Rattle.nf_session.specs.Turn.{Meets, MeetsWith, Responds, Turn, Writes, way_by};
ghost use Rattle.nf_session.specs.Session.{Session};
ghost use Rattle.nf_session.specs.declared.backend.Ending.TheVariants as ending;
ghost use Rattle.nf_session.specs.declared.ended.Ended.TheVariants as ended;

use crate::backend::{Backend, Ending, PieceFault};
use crate::begun::{Begun, is_early};
use crate::ended::{Ended, closes, end_by, end_of, says_close};
use crate::response::Response;
use nf_base::{Content, MAX_MESSAGES, Moment};
use nf_dav::{
    Manner, Unasked, continue_answer, done, file_head, items, listing, made, plain, refusal,
    request, share, shares, versions,
};
use nf_http::{Buffer, Message, WireFault, next_message, read_body, send, skip_body};
use nf_outside::{Clock, Dice, Sink, Source};
use nf_routes::{Routes, is_ocs};
use nf_words::{Denial, Goal, Reply, Words};
use std::alloc::{AllocError, Global};

/// The most bytes of a first piece that is written with its head in one call, so that both leave in one run of packets. A
/// longer one isn't worth the copy.
const SMALL_PIECE: usize = 65_536;

// How bytes are refused that are no message, or end inside one.
const LAST: Manner = Manner {
    close: true,
    ocs: false,
    head_only: false,
};

/// The two ends of a connection, the bytes that were read and not yet taken, and what its messages are answered from.
#[derive(Drop)]
pub struct Connection<
    't,
    'r,
    'i,
    'o,
    'c,
    'd,
    'b,
    S: Source,
    O: Sink,
    C: Clock,
    D: Dice,
    B: Backend,
> {
    pub alloc: Global,
    pub routes: &'t Routes,
    pub buffer: &'r mut Buffer,
    pub input: &'i mut S,
    pub output: &'o mut O,
    pub clock: &'c mut C,
    pub dice: &'d mut D,
    pub backend: &'b mut B,
}

impl<'t, 'r, 'i, 'o, 'c, 'd, 'b, S, O, C, D, B> Connection<
    't,
    'r,
    'i,
    'o,
    'c,
    'd,
    'b,
    S,
    O,
    C,
    D,
    B,
>
where
    S: Source,
    O: Sink,
    C: Clock,
    D: Dice,
    B: Backend,
{
    // Takes the head at the front of the input, and tells the output of its answer.
    #[tactic(auto, using(crate::proofs::Fronts::stream_front))]
    fn next(&mut self) -> Result<Option<Message>, WireFault>
        ensures same { IsSame B.Backend self.old self.new }
        ensures heads { Heads (scene S.Ends O.Ends B.Backend self.old) (scene S.Ends O.Ends B.Backend self.new) result }
    {
        match next_message(self.alloc, self.input, self.buffer) {
            Ok(Some(message)) => {
                self.output.begin_answer(message.method(), message.target());
                Ok(Some(message))
            }
            Ok(None) => Ok(None),
            Err(fault) => Err(fault),
        }
    }

    // Reads a body of that many bytes.
    fn read(&mut self, length: usize) -> Result<Vec<u8>, WireFault>
        ensures same { IsSame B.Backend self.old self.new }
        ensures ok { IfOk result (λ body. Bodies (scene S.Ends O.Ends B.Backend self.old)
            (scene S.Ends O.Ends B.Backend self.new) length body.items) }
        ensures err { IfErr result (Cuts CutsBody (scene S.Ends O.Ends B.Backend self.old)
            (scene S.Ends O.Ends B.Backend self.new) length) }
    {
        read_body(self.alloc, self.input, self.buffer, length)
    }

    // Skips a body of that many bytes.
    fn skip(&mut self, length: usize) -> Result<(), WireFault>
        ensures same { IsSame B.Backend self.old self.new }
        ensures ok { OnOk result (Skips (scene S.Ends O.Ends B.Backend self.old)
            (scene S.Ends O.Ends B.Backend self.new) length) }
        ensures err { IfErr result (Cuts CutsRead (scene S.Ends O.Ends B.Backend self.old)
            (scene S.Ends O.Ends B.Backend self.new) length) }
    {
        skip_body(self.input, self.buffer, length)
    }

    fn write(&mut self, bytes: &[u8]) -> Result<(), Ended>
        ensures same { IsSame B.Backend self.old self.new }
        ensures sends { Sends (scene S.Ends O.Ends B.Backend self.old)
            (scene S.Ends O.Ends B.Backend self.new) bytes.now result }
    {
        match send(self.output, bytes) {
            Ok(()) => Ok(()),
            Err(_) => Err(Ended::WriteFault),
        }
    }

    // Writes an answer, where there was memory for it.
    fn say(&mut self, bytes: Result<Vec<u8>, AllocError>) -> Result<(), Ended>
        ensures same { IsSame B.Backend self.old self.new }
        ensures ok { IfOk bytes (λ bytes. Sends (scene S.Ends O.Ends B.Backend self.old)
            (scene S.Ends O.Ends B.Backend self.new) bytes.items result) }
        ensures err { OnErr bytes ((result ≡ Err ended.Memory)
            × (scene S.Ends O.Ends B.Backend self.new ≡ scene S.Ends O.Ends B.Backend self.old)) }
    {
        match bytes {
            Ok(bytes) => self.write(&bytes),
            Err(_) => Err(Ended::Memory),
        }
    }

    // Takes the body that a message's request may go by.
    fn early(&mut self, message: &Message) -> Result<Vec<u8>, WireFault>
        ensures same { IsSame B.Backend self.old self.new }
        ensures ok { IfOk result (λ body. TakesEarly message.now (scene S.Ends O.Ends B.Backend self.old)
            (scene S.Ends O.Ends B.Backend self.new) (Ok body.items)) }
        ensures err { IfErr result (λ fault. TakesEarly message.now (scene S.Ends O.Ends B.Backend self.old)
            (scene S.Ends O.Ends B.Backend self.new) (Err fault)) }
        ensures book { B.book self.new.backend.now ≡ B.book self.old.backend.now }
    {
        if is_early(message) {
            self.read(message.length())
        } else {
            Ok(Vec::new(self.alloc))
        }
    }

    // The Begin of a message's request, which may go by the body that was taken. Where there is no memory for that, it is refused so.
    fn begin(&mut self, message: &Message, body: &[u8]) -> Begun
        requires { held (B.book self.old.backend.now) ≡ None }
        ensures same { IsSame B.Backend self.old self.new }
        ensures judges { Judges (takes C.reads D.draws) message.now body.now (scene S.Ends O.Ends B.Backend self.old)
            (scene S.Ends O.Ends B.Backend self.new) result }
        ensures begun { IsBegun (B.book self.new.backend.now) result }
    {
        match request(self.routes, self.alloc, message, body) {
            Ok(request) => {
                let now = Moment::new(self.clock.now());
                let words = words_of(self.dice);
                Begun::Asked(self.backend.begin(now, words, request))
            }
            Err(Unasked::Refused(denial)) => Begun::Unasked(denial),
            Err(Unasked::Memory) => Begun::Unasked(Denial::Memory),
        }
    }

    // Tells whoever waits for it to send the body that was granted.
    fn invite(&mut self, message: &Message, begun: &Begun) -> Result<(), Ended>
        ensures same { IsSame B.Backend self.old self.new }
        ensures invites { Invites message.now begun.now (scene S.Ends O.Ends B.Backend self.old)
            (scene S.Ends O.Ends B.Backend self.new) result }
        ensures book { B.book self.new.backend.now ≡ B.book self.old.backend.now }
    {
        if begun.is_invited(message) {
            self.write(continue_answer())
        } else {
            Ok(())
        }
    }

    // Takes the body of a message, or skips so much of it, and what was begun becomes a response by that.
    fn take_body(
        &mut self,
        message: &Message,
        begun: Begun,
        skipped: usize,
    ) -> Result<Response, WireFault>
        requires begun { IsBegun (B.book self.old.backend.now) begun }
        requires skipped { skipped ≡ skipped_length message.now begun }
        ensures same { IsSame B.Backend self.old self.new }
        ensures takes { TakesIn (takes C.reads D.draws) message.now (scene S.Ends O.Ends B.Backend self.old)
            (scene S.Ends O.Ends B.Backend self.new) begun result }
        ensures responding { IfOk result (IsResponding (B.book self.new.backend.now)) }
        ensures cut { OnErr result (B.book self.new.backend.now ≡ B.book self.old.backend.now) }
    {
        if let Some(length) = begun.stored_length() {
            drop(begun);
            let body = self.read(length as usize)?;
            return Ok(self.store(body));
        }
        match self.skip(skipped) {
            Ok(()) => Ok(self.pass(begun)),
            Err(fault) => {
                drop(begun);
                Err(fault)
            }
        }
    }

    // Makes a response of what was begun, where that takes no body.
    fn pass(&mut self, begun: Begun) -> Response
        requires begun { IsBegun (B.book self.old.backend.now) begun }
        requires unstored { stored_length begun ≡ None }
        ensures same { IsSame B.Backend self.old self.new }
        ensures passes { (body : List ℕ) → Passes (takes C.reads D.draws) body (scene S.Ends O.Ends B.Backend self.old)
            (scene S.Ends O.Ends B.Backend self.new) begun result }
        ensures responding { IsResponding (B.book self.new.backend.now) result }
    {
        match begun {
            Begun::Asked(Ok(Reply::Granted(Goal::Serve(content)))) => self.start(content),
            Begun::Asked(Ok(Reply::Made)) => Response::Made,
            Begun::Asked(Ok(Reply::Done)) => Response::Done,
            Begun::Asked(Ok(Reply::Listing(lines))) => Response::Listing(lines),
            Begun::Asked(Ok(Reply::Share(line))) => Response::Share(line),
            Begun::Asked(Ok(Reply::Shares(lines))) => Response::Shares(lines),
            Begun::Asked(Ok(Reply::Items(lines))) => Response::Items(lines),
            Begun::Asked(Ok(Reply::Versions(lines))) => Response::Versions(lines),
            Begun::Asked(Ok(Reply::Plain)) => Response::Plain,
            Begun::Asked(
                Ok(Reply::Granted(Goal::Store { .. } | Goal::Chunk { .. }) | Reply::Closed),
            ) => unreachable!(),
            Begun::Asked(Err(denial)) | Begun::Unasked(denial) => Response::Denied(denial),
        }
    }

    // The End of what is to be stored, with its body.
    fn store(&mut self, body: Vec<u8>) -> Response
        requires { MayEnd (held (B.book self.old.backend.now)) (ending.Body body) }
        ensures same { IsSame B.Backend self.old self.new }
        ensures stores { StoresBody (takes C.reads D.draws) body.items (scene S.Ends O.Ends B.Backend self.old)
            (scene S.Ends O.Ends B.Backend self.new) result }
        ensures responding { IsResponding (B.book self.new.backend.now) result }
    {
        let now = Moment::new(self.clock.now());
        Response::of(self.backend.end(now, Ending::Body(body)))
    }

    // Takes the first piece of a file that is to be sent.
    fn start(&mut self, content: Content) -> Response
        requires { held (B.book self.old.backend.now) ≡ Some (Serve content) }
        ensures same { IsSame B.Backend self.old self.new }
        ensures starts { StartsFile (scene S.Ends O.Ends B.Backend self.old)
            (scene S.Ends O.Ends B.Backend self.new) content result }
        ensures responding { IsResponding (B.book self.new.backend.now) result }
    {
        if content.pieces().is_empty() {
            return Response::File {
                content,
                first: None,
            };
        }
        match self.backend.blob(&content, 0) {
            Ok(piece) => Response::File {
                content,
                first: Some(piece),
            },
            Err(fault) => Response::Lost(fault),
        }
    }

    // Writes the response to a message, which may close the session; how it ends that, if it does.
    fn respond(
        &mut self,
        message: &Message,
        closes: bool,
        response: &Response,
        last: bool,
    ) -> Result<Option<Ended>, Ended>
        requires { IsResponding (B.book self.old.backend.now) response.now }
        ensures same { IsSame B.Backend self.old self.new }
        ensures responds { Responds last (way_by closes message.now) response.now (scene S.Ends O.Ends B.Backend self.old)
            (scene S.Ends O.Ends B.Backend self.new) result }
        ensures held { held (B.book self.new.backend.now) ≡ held (B.book self.old.backend.now) }
    {
        let end = end_of(closes, response);
        self.write_response(response, manner(message, says_close(last, &end)))?;
        Ok(end)
    }

    fn write_response(&mut self, response: &Response, manner: Manner) -> Result<(), Ended>
        requires { IsResponding (B.book self.old.backend.now) response.now }
        ensures same { IsSame B.Backend self.old self.new }
        ensures writes { Writes manner response.now (scene S.Ends O.Ends B.Backend self.old)
            (scene S.Ends O.Ends B.Backend self.new) result }
        ensures held { held (B.book self.new.backend.now) ≡ held (B.book self.old.backend.now) }
    {
        match response {
            Response::Denied(denial) => self.say(refusal(self.alloc, denial, manner)),
            Response::Made => self.say(made(self.alloc, manner.close)),
            Response::Done => self.say(done(self.alloc, manner.close)),
            Response::Listing(lines) => self.say(listing(self.alloc, lines, manner.close)),
            Response::Share(line) => self.say(share(self.alloc, line, manner.close)),
            Response::Shares(lines) => self.say(shares(self.alloc, lines, manner.close)),
            Response::Items(lines) => self.say(items(self.alloc, lines, manner.close)),
            Response::Versions(lines) => self.say(versions(self.alloc, lines, manner.close)),
            Response::Plain => self.say(plain(self.alloc, manner.close)),
            Response::Lost(fault) => self.say(refusal(self.alloc, &fault.denial(), manner)),
            Response::File { content, first } => self.send_file(content, first, manner.close),
        }
    }

    // Sends the head of a file, its first piece, and the others as they are taken.
    fn send_file(
        &mut self,
        content: &Content,
        first: &Option<Vec<u8>>,
        close: bool,
    ) -> Result<(), Ended>
        requires { IsStarted (B.book self.old.backend.now) content.now first.now }
        ensures same { IsSame B.Backend self.old self.new }
        ensures sends { SendsFile close content.now first.now (scene S.Ends O.Ends B.Backend self.old)
            (scene S.Ends O.Ends B.Backend self.new) result }
        ensures held { held (B.book self.new.backend.now) ≡ held (B.book self.old.backend.now) }
    {
        self.send_front(content, first, close)?;
        for index in 1..content.pieces().len() {
            self.send_piece(content, index)?;
        }
        Ok(())
    }

    // Writes the head of a file and its first piece, by one call of the sink where that piece is small.
    fn send_front(
        &mut self,
        content: &Content,
        first: &Option<Vec<u8>>,
        close: bool,
    ) -> Result<(), Ended>
        ensures same { IsSame B.Backend self.old self.new }
        ensures says { Says (scene S.Ends O.Ends B.Backend self.old) (scene S.Ends O.Ends B.Backend self.new)
            (file_front close content.now (taken_first first.now)) result }
    {
        let Ok(mut front) = file_head(self.alloc, content.size(), close) else {
            return Err(Ended::Memory);
        };
        let rest = append_small(&mut front, bytes_of(first));
        self.write(&front)?;
        self.write(rest)
    }

    fn take_piece(&mut self, content: &Content, index: usize) -> Result<Vec<u8>, PieceFault>
        requires granted { held (B.book self.old.backend.now) ≡ Some (Serve content.now) }
        requires index { index < length content.now }
        ensures same { IsSame B.Backend self.old self.new }
        ensures takes { TakesPiece content.now index (scene S.Ends O.Ends B.Backend self.old)
            (scene S.Ends O.Ends B.Backend self.new) result }
        ensures held { held (B.book self.new.backend.now) ≡ held (B.book self.old.backend.now) }
    {
        self.backend.blob(content, index)
    }

    fn send_piece(&mut self, content: &Content, index: usize) -> Result<(), Ended>
        requires granted { held (B.book self.old.backend.now) ≡ Some (Serve content.now) }
        requires index { index < length content.now }
        ensures same { IsSame B.Backend self.old self.new }
        ensures sends { SendsPiece content.now index (scene S.Ends O.Ends B.Backend self.old)
            (scene S.Ends O.Ends B.Backend self.new) result }
        ensures held { held (B.book self.new.backend.now) ≡ held (B.book self.old.backend.now) }
    {
        match self.take_piece(content, index) {
            Ok(piece) => self.write(&piece),
            Err(PieceFault::Memory) => Err(Ended::Memory),
            Err(fault) => Err(Ended::Cut(fault)),
        }
    }

    // Ends what is still granted.
    fn close(&mut self, granted: bool, ending: Ending)
        requires granted { granted ≡ is_some (held (B.book self.old.backend.now)) }
        requires closing { IsClosing ending }
        ensures same { IsSame B.Backend self.old self.new }
        ensures closes { Closes (takes C.reads D.draws) ending granted (scene S.Ends O.Ends B.Backend self.old)
            (scene S.Ends O.Ends B.Backend self.new) }
        ensures idle { held (B.book self.new.backend.now) ≡ None }
    {
        if granted {
            let now = Moment::new(self.clock.now());
            let _ = self.backend.end(now, ending);
        }
    }

    // Answers bytes at whose front no message stands, or that end inside one; how the session ends by it.
    fn refuse(&mut self, fault: WireFault) -> Ended
        ensures same { IsSame B.Backend self.old self.new }
        ensures refuses { EndsBy fault (scene S.Ends O.Ends B.Backend self.old)
            (scene S.Ends O.Ends B.Backend self.new) result }
    {
        match fault {
            WireFault::ReadFault => Ended::ReadFault,
            WireFault::Memory => Ended::Memory,
            WireFault::Bad => self.deny(&Denial::BadMessage),
            WireFault::HeadLong => self.deny(&Denial::Head),
            WireFault::Coding => self.deny(&Denial::Coding),
            WireFault::TooLarge { .. } => self.deny(&Denial::TooLarge),
            WireFault::Truncated => self.deny(&Denial::BadMessage),
        }
    }

    fn deny(&mut self, denial: &Denial) -> Ended
        ensures same { IsSame B.Backend self.old self.new }
        ensures denies { EndsSo denial.now (scene S.Ends O.Ends B.Backend self.old)
            (scene S.Ends O.Ends B.Backend self.new) result }
    {
        match refusal(self.alloc, denial, LAST) {
            Ok(bytes) => match self.write(&bytes) {
                Ok(()) => Ended::BadMessage,
                Err(ended) => ended,
            },
            Err(_) => Ended::Memory,
        }
    }

    // Answers one message, whose head was taken; how the session ends, if it does. No other is answered after the `last`.
    fn answer(&mut self, message: &Message, last: bool) -> Option<Ended>
        requires { held (B.book self.old.backend.now) ≡ None }
        ensures same { IsSame B.Backend self.old self.new }
        ensures meets { Meets (takes C.reads D.draws) last message.now (scene S.Ends O.Ends B.Backend self.old)
            (scene S.Ends O.Ends B.Backend self.new) result }
        ensures idle { held (B.book self.new.backend.now) ≡ None }
    {
        match self.early(message) {
            Ok(body) => self.answer_with(message, &body, last),
            Err(fault) => Some(self.refuse(fault)),
        }
    }

    // The same, once the body was taken that its request may go by.
    fn answer_with(&mut self, message: &Message, body: &[u8], last: bool) -> Option<Ended>
        requires { held (B.book self.old.backend.now) ≡ None }
        ensures same { IsSame B.Backend self.old self.new }
        ensures meets { MeetsWith (takes C.reads D.draws) last message.now body.now (scene S.Ends O.Ends B.Backend self.old)
            (scene S.Ends O.Ends B.Backend self.new) result }
        ensures idle { held (B.book self.new.backend.now) ≡ None }
    {
        let begun = self.begin(message, body);
        let granted = begun.is_granted();
        if let Err(ended) = self.invite(message, &begun) {
            drop(begun);
            self.close(granted, Ending::Gone);
            return Some(ended);
        }
        let closes = closes(message, &begun);
        let skipped = begun.skipped_length(message);
        match self.take_body(message, begun, skipped) {
            Ok(response) => {
                let written = self.respond(message, closes, &response, last);
                self.close(response.stays_granted(), response.ending(&written));
                end_by(written)
            }
            Err(fault) => {
                let ended = self.refuse(fault);
                self.close(granted, Ending::Gone);
                Some(ended)
            }
        }
    }

    // Tells the output that the answer was written, or broke off.
    fn end_answer(&mut self)
        ensures same { IsSame B.Backend self.old self.new }
        ensures scene { scene S.Ends O.Ends B.Backend self.new ≡ scene S.Ends O.Ends B.Backend self.old }
        ensures backend { self.new.backend.now ≡ self.old.backend.now }
    {
        self.output.end_answer();
    }

    // One turn: the next message and its answer; how the session ends, if it does.
    fn exchange(&mut self, last: bool) -> Option<Ended>
        requires { held (B.book self.old.backend.now) ≡ None }
        ensures same { IsSame B.Backend self.old self.new }
        ensures turn { Turn (takes C.reads D.draws) last (scene S.Ends O.Ends B.Backend self.old)
            (scene S.Ends O.Ends B.Backend self.new) result }
        ensures idle { held (B.book self.new.backend.now) ≡ None }
    {
        match self.next() {
            Ok(None) => Some(Ended::Closed),
            Ok(Some(message)) => {
                let ended = self.answer(&message, last);
                self.end_answer();
                ended
            }
            Err(fault) => {
                let ended = self.refuse(fault);
                self.end_answer();
                Some(ended)
            }
        }
    }

    // Messages until one ends the session, the input ends, or `MAX_MESSAGES` were answered: then None.
    fn session(&mut self) -> Option<Ended>
        requires { held (B.book self.old.backend.now) ≡ None }
        ensures same { IsSame B.Backend self.old self.new }
        ensures session { Session (takes C.reads D.draws) (scene S.Ends O.Ends B.Backend self.old)
            (scene S.Ends O.Ends B.Backend self.new) result }
        ensures idle { held (B.book self.new.backend.now) ≡ None }
    {
        for turn in 0..MAX_MESSAGES - 1 {
            let _ = turn;
            if let Some(ended) = self.exchange(false) {
                return Some(ended);
            }
        }
        self.exchange(true)
    }
}

// Two words of chance. Each Begin has them, whatever it asks for.
fn words_of<D: Dice>(dice: &mut D) -> Words
    ensures { (between : D) × D.draws dice.old result.first between × D.draws between result.second dice.new }
{
    let first = dice.draw();
    let second = dice.draw();
    Words { first, second }
}

// Lets go of what was begun: in a call, since a function that owns it would do so case by case at each of its ways out.
fn drop(_begun: Begun) {}

fn manner(message: &Message, close: bool) -> Manner
    ensures { result ≡ record { close = close; ocs = begins_with_ocs message.now.target; head_only = bytes_eq message.now.method (codes "HEAD") } }
{
    Manner {
        close,
        ocs: is_ocs(message.target()),
        head_only: message.method() == b"HEAD".as_slice(),
    }
}

// The bytes of a file's first piece, if it has one.
fn bytes_of(first: &Option<Vec<u8>>) -> &[u8]
    ensures { result.now ≡ concat (taken_first first.now) }
{
    match first {
        Some(piece) => piece,
        None => &[],
    }
}

// Appends a small piece to the head, where there is memory for that; the bytes that are still to be written behind it.
fn append_small<'p>(head: &mut Vec<u8>, piece: &'p [u8]) -> &'p [u8]
    ensures { head.new.items ++ result.now ≡ head.old.items ++ piece.now }
{
    if piece.len() <= SMALL_PIECE && head.extend_from_slice(piece).is_ok() {
        &[]
    } else {
        piece
    }
}

/// Serves the messages of one connection; each Begin has two words of the dice. None says that `MAX_MESSAGES` were answered, and that none
/// ended the session.
///
/// Up to `MAX_HEAD` bytes may have been read behind the last message that was taken; they are lost with the session.
pub fn serve_session<S: Source, O: Sink, C: Clock, D: Dice, B: Backend>(
    alloc: Global,
    routes: &Routes,
    input: &mut S,
    output: &mut O,
    clock: &mut C,
    dice: &mut D,
    backend: &mut B,
) -> Option<Ended>
    requires { held (B.book backend.old) ≡ None }
    ensures session { (kept : List ℕ) × (length kept ≤ MAX_HEAD) × Session (takes C.reads D.draws)
        (between S.Ends O.Ends B.Backend [] input.old output.old clock.old dice.old backend.old)
        (between S.Ends O.Ends B.Backend kept input.new output.new clock.new dice.new backend.new) result }
    ensures idle { held (B.book backend.new) ≡ None }
    ensures lent { B.lent backend.new ≡ B.lent backend.old }
{
    let mut buffer = Buffer::new();
    let ended = serve(
        alloc,
        routes,
        &mut buffer,
        input,
        output,
        clock,
        dice,
        backend,
    );
    // What was read and not taken fits the buffer.
    let _ = buffer.bytes();
    ended
}

fn serve<S: Source, O: Sink, C: Clock, D: Dice, B: Backend>(
    alloc: Global,
    routes: &Routes,
    buffer: &mut Buffer,
    input: &mut S,
    output: &mut O,
    clock: &mut C,
    dice: &mut D,
    backend: &mut B,
) -> Option<Ended>
    requires { held (B.book backend.old) ≡ None }
    ensures session { Session (takes C.reads D.draws)
        (between S.Ends O.Ends B.Backend buffer.old input.old output.old clock.old dice.old backend.old)
        (between S.Ends O.Ends B.Backend buffer.new input.new output.new clock.new dice.new backend.new) result }
    ensures idle { held (B.book backend.new) ≡ None }
    ensures lent { B.lent backend.new ≡ B.lent backend.old }
{
    let mut connection = Connection {
        alloc,
        routes,
        buffer,
        input,
        output,
        clock,
        dice,
        backend,
    };
    connection.session()
}
