// The server's record and its calls: Figure 1, lines 26 to 56. A call works on a head by value and a lent row of words, two words a place,
// of any even length; the same calls on a record by value lend the record's own row and write what is sent.

#![tactic(auto)]

ghost use Rattle.std.specs.Prelude.{◌≡◌, Err, ◌+◌, ◌<◌, ◌≤◌, length, drop};
ghost use Rattle.std.proofs.lemmas.List.Edits.{sets};
ghost use Rattle.ids.specs.Limits.{valid_request};
ghost use Rattle.ids.specs.Lists.{every};
ghost use Rattle.rows.specs.Rows.{queue_of, Padded};
ghost use Rattle.wire.specs.Format.{bytes_of_all, size_of_all};
ghost use Rattle.wire.specs.Step.{with_room};
ghost use Rattle.server_votes.specs.Queues.{view as votes_view};
ghost use Rattle.server_votes.specs.Places.{mails};
ghost use Rattle.server.specs.Record.{ordered, once, valid_state, server_of, valid_up_to, valid};
ghost use Rattle.server.specs.Parts.{three_mails, sent_answer, sent_buffer};
ghost use Rattle.server.specs.Inner.{refusing, doing, answering, buffering, keeping, repeats, fits_owner, asked_by};
ghost use Rattle.server.specs.Calls.{Gives, NewGives, taken, empty_head, empty_server, blank, message_outcome, suspect_outcome, check_outcome};
ghost use Rattle.server.specs.Rows.{Turns};

use ids::{ClientId, Refusal, Request, ServerId, Timestamp};
use rows::Wanted;
use server_votes::{Moved, Tag, Votes};
use wire::{Message, Sent};

// The places of a waiting line, in a record by value.
pub const QUEUE_PLACES: usize = 32;

pub const ROW_WORDS: usize = 2 * QUEUE_PLACES;

// Server `id` of `n`: its record but for the queue's row.
#[derive(Clone, Copy)]
pub struct Head {
    pub n: u16,
    pub id: ServerId,
    pub votes: Votes,
}

#[derive(Clone, Copy)]
pub struct Server {
    pub head: Head,
    pub row: [u32; ROW_WORDS],
}

// The record after a call, and what was sent.
#[derive(Clone, Copy)]
pub struct Stepped {
    pub server: Server,
    pub answer: Result<Sent, Refusal>,
}

// What a call on a lent row leaves beside the row: the head, and the messages to send, in order.
#[derive(Clone, Copy)]
pub struct Turned {
    pub head: Head,
    pub ruling: Result<(), Refusal>,
    pub first: Option<Message>,
    pub second: Option<Message>,
    pub third: Option<Message>,
}

fn mail_size(m: Option<Message>) -> usize
    ensures { result ≡ size_of_all (mails m) }
{
    match m {
        None => 0,
        Some(x) => wire::size_of(x),
    }
}

fn mail_count(m: Option<Message>) -> usize
    ensures { result ≡ length (mails m) }
{
    match m {
        None => 0,
        Some(_) => 1,
    }
}

fn put_mail(out: &mut [u8], at: usize, m: Option<Message>) -> usize
    requires { at + size_of_all (mails m) ≤ length out.old }
    ensures { (result ≡ at + size_of_all (mails m)) × (out.new ≡ sets out.old at (bytes_of_all (mails m))) }
{
    match m {
        None => at,
        Some(x) => wire::put(out, at, x),
    }
}

fn sizes(first: Option<Message>, second: Option<Message>, third: Option<Message>) -> usize
    ensures { result ≡ size_of_all (three_mails first second third) }
{
    mail_size(first) + mail_size(second) + mail_size(third)
}

// How many messages a step sends.
pub fn counts(first: Option<Message>, second: Option<Message>, third: Option<Message>) -> usize
    ensures { result ≡ length (three_mails first second third) }
{
    mail_count(first) + mail_count(second) + mail_count(third)
}

fn put_three(
    out: &mut [u8],
    first: Option<Message>,
    second: Option<Message>,
    third: Option<Message>,
)
    requires { size_of_all (three_mails first second third) ≤ length out.old }
    ensures { out.new ≡ sets out.old 0 (bytes_of_all (three_mails first second third)) }
{
    let a = put_mail(out, 0, first);
    let b = put_mail(out, a, second);
    put_mail(out, b, third);
}

// The messages of a step written one after another, if there is room for all of them.
pub fn send(
    first: Option<Message>,
    second: Option<Message>,
    third: Option<Message>,
    out: &mut [u8],
) -> Result<Sent, Refusal>
    ensures { (result ≡ sent_answer (three_mails first second third) (length out.old)) × (out.new ≡ sent_buffer (three_mails first second third) out.old) }
{
    let size = sizes(first, second, third);
    if out.len() < size {
        return Err(Refusal::RoomShort);
    }
    put_three(out, first, second, third);
    Ok(Sent {
        messages: counts(first, second, third),
        bytes: size,
    })
}

fn refuse(head: Head, e: Refusal) -> Turned
    ensures { result ≡ refusing head e }
{
    Turned {
        head,
        ruling: Err(e),
        first: None,
        second: None,
        third: None,
    }
}

// A step that was made: its votes in the head, and its messages.
fn done(h: Head, m: Moved) -> Turned
    ensures { result ≡ doing h m }
{
    Turned {
        head: Head {
            votes: m.votes,
            ..h
        },
        ruling: Ok(()),
        first: m.first,
        second: m.second,
        third: m.third,
    }
}

// A message of this tag to server `j`, with `k`'s timestamp `t`. For callers that know the record to be valid.
pub fn take_row(
    h: Head,
    row: &mut [u32],
    tag: Tag,
    k: ClientId,
    j: ServerId,
    t: Timestamp,
) -> Turned
    requires { Padded row.old h.votes.len }
    ensures { Turns h row.old (taken (server_of h row.old) tag k j t) result row.new }
{
    if j != h.id {
        return refuse(h, Refusal::NotForServer);
    }
    let r = Request {
        client: k,
        timestamp: t,
    };
    let m = server_votes::receive(h.id, tag, r, h.votes, row);
    if m.full {
        return refuse(h, Refusal::QueueFull);
    }
    done(h, m)
}

fn all_valid(row: &[u32], len: usize) -> bool
    requires { Padded row.now len }
    ensures { result ≡ every valid_request (queue_of row.now len) }
{
    (0..len).all(|i| ids::valid_request(rows::request_at(row, i)))
}

fn in_order(row: &[u32], len: usize) -> bool
    requires { Padded row.now len }
    ensures { result ≡ ordered (queue_of row.now len) }
{
    (1..len).all(|i| ids::precedes(rows::request_at(row, i - 1), rows::request_at(row, i)))
}

fn no_client_twice(row: &[u32], len: usize) -> bool
    requires { Padded row.now len }
    ensures { result ≡ once (queue_of row.now len) }
{
    (0..len).all(|i| !repeated(row, len, i))
}

// Whether the client at place `i` stands at a later place too.
fn repeated(row: &[u32], len: usize, i: usize) -> bool
    requires { (i < len) × Padded row.now len }
    ensures { result ≡ repeats (drop i (queue_of row.now len)) }
{
    let x = rows::request_at(row, i);
    let at = rows::find(row, len, Wanted::Client, x, i + 1);
    at < len
}

// Whether a queue stands only behind an owner, who does not wait in it.
fn owner_fits(o: Option<Request>, row: &[u32], len: usize) -> bool
    requires { Padded row.now len }
    ensures { result ≡ fits_owner o (queue_of row.now len) }
{
    match o {
        None => len == 0,
        Some(r) => rows::search(row, len, r.client) == len,
    }
}

fn valid_votes(v: Votes, row: &[u32]) -> bool
    requires { Padded row.now v.len }
    ensures { result ≡ valid_state (votes_view v row.now) }
{
    if !ids::valid_owner(v.owner) {
        return false;
    }
    if !all_valid(row, v.len) {
        return false;
    }
    if !owner_fits(v.owner, row, v.len) {
        return false;
    }
    if !in_order(row, v.len) {
        return false;
    }
    no_client_twice(row, v.len)
}

// Whether head and row are a record that a server can have where there are at most so many: document 01's 'A record is broken if ..', turned
// round.
pub fn valid_row_up_to(limit: u32, h: Head, row: &[u32]) -> bool
    ensures { result ≡ valid_up_to limit (server_of h row.now) }
{
    if !ids::within_limit(h.n as u32, limit) {
        return false;
    }
    if !ids::within_limit(h.id.0 as u32, h.n as u32) {
        return false;
    }
    if !rows::good_row(row, h.votes.len) {
        return false;
    }
    valid_votes(h.votes, row)
}

// The same up to today's limit.
pub fn valid_row(h: Head, row: &[u32]) -> bool
    ensures { result ≡ valid (server_of h row.now) }
{
    valid_row_up_to(ids::MAX_SERVERS, h, row)
}

// What a message asks of a server: a step by its tag, or nothing, where it goes to a client.
fn asks(m: Message) -> Option<(Tag, ClientId, ServerId, Timestamp)>
    ensures { result ≡ asked_by m }
{
    match m {
        Message::Request(k, j, t) => Some((Tag::Request, k, j, t)),
        Message::Yield(k, j, t) => Some((Tag::Yield, k, j, t)),
        Message::Release(k, j, t) => Some((Tag::Release, k, j, t)),
        Message::Inquiry(k, j, t) => Some((Tag::Inquiry, k, j, t)),
        Message::Response(_, _, _) => None,
        Message::Check(_, _, _) => None,
    }
}

// Lines 26 to 45: a REQUEST, YIELD, RELEASE or INQUIRY. Refused 21, 5, 13, 14.
pub fn message_row(h: Head, row: &mut [u32], m: Message) -> Turned
    ensures { Turns h row.old (message_outcome (server_of h row.old) m) result row.new }
{
    if !valid_row(h, row) {
        return refuse(h, Refusal::InvalidRecord);
    }
    if !wire::valid_message(m) {
        return refuse(h, Refusal::NumberOutOfRange);
    }
    match asks(m) {
        Some((tag, k, j, t)) => take_row(h, row, tag, k, j, t),
        None => refuse(h, Refusal::NotForServer),
    }
}

// Lines 46 and 47: the owner is suspected to have crashed. Refused 21, 15.
pub fn suspect_row(h: Head, row: &mut [u32]) -> Turned
    ensures { Turns h row.old (suspect_outcome (server_of h row.old)) result row.new }
{
    if !valid_row(h, row) {
        return refuse(h, Refusal::InvalidRecord);
    }
    match h.votes.owner {
        None => refuse(h, Refusal::NoOwner),
        Some(o) => done(h, server_votes::delete(h.id, o, h.votes, row)),
    }
}

// Lines 48 and 49: CHECK to the owner. Refused 21.
pub fn check_row(h: Head, row: &[u32]) -> Turned
    ensures { Turns h row.now (check_outcome (server_of h row.now)) result row.now }
{
    if !valid_row(h, row) {
        return refuse(h, Refusal::InvalidRecord);
    }
    match h.votes.owner {
        None => done(h, server_votes::still(h.votes)),
        Some(o) => {
            let message = Message::Check(o.client, h.id, o.timestamp);
            done(h, server_votes::telling(h.votes, message))
        }
    }
}

// What a call by value answers: the refusal, or what sending the step's messages answers.
fn answered(t: Turned, out: &mut [u8]) -> Result<Sent, Refusal>
    ensures { (result ≡ answering t (length out.old)) × (out.new ≡ buffering t out.old) }
{
    t.ruling?;
    send(t.first, t.second, t.third, out)
}

// The step's messages are sent and its record kept, or, for want of room, neither.
fn finish(s: Server, t: Turned, row: [u32; ROW_WORDS], out: &mut [u8]) -> Stepped
    ensures { (result ≡ keeping s t.head row (answering t (length out.old))) × (out.new ≡ buffering t out.old) }
{
    let answer = answered(t, out);
    match answer {
        Ok(_) => Stepped {
            server: Server { head: t.head, row },
            answer,
        },
        Err(_) => Stepped { server: s, answer },
    }
}

// `valid_row` of a record by value.
pub fn valid_server(s: Server) -> bool
    ensures { result ≡ valid s }
{
    valid_row(s.head, &s.row)
}

// The head of server `id` of `n` with no owner and nobody waiting, whether or not these numbers are in range.
pub fn empty_head(n: u16, id: ServerId) -> Head
    ensures { result ≡ empty_head n id }
{
    Head {
        n,
        id,
        votes: Votes {
            owner: None,
            len: 0,
        },
    }
}

fn empty_server(n: u16, id: ServerId) -> Server
    ensures { result ≡ empty_server n id }
{
    Server {
        head: empty_head(n, id),
        row: [0; ROW_WORDS],
    }
}

// What a refused `new` hands back: a record that no call accepts.
fn unmade(e: Refusal) -> Stepped
    ensures { result ≡ record { server = blank; answer = Err e } }
{
    Stepped {
        server: empty_server(0, ServerId(0)),
        answer: Err(e),
    }
}

// Server `id` of `n`, with no owner. Refused 7.
pub fn new(n: u16, id: ServerId) -> Stepped
    ensures { NewGives n id result }
{
    if !ids::within_limit(n as u32, ids::MAX_SERVERS) {
        return unmade(Refusal::ParameterOutOfRange);
    }
    if !ids::within_limit(id.0 as u32, n as u32) {
        return unmade(Refusal::ParameterOutOfRange);
    }
    Stepped {
        server: empty_server(n, id),
        answer: Ok(Sent {
            messages: 0,
            bytes: 0,
        }),
    }
}

// `message_row` on a record by value. Refused 21, 5, 13, 14, 6.
pub fn message(s: Server, m: Message, out: &mut [u8]) -> Stepped
    ensures { Gives s (with_room (length out.old) (message_outcome s m)) out.old result out.new }
{
    let mut row = s.row;
    let t = message_row(s.head, &mut row, m);
    finish(s, t, row, out)
}

// `suspect_row` on a record by value. Refused 21, 15, 6.
pub fn suspect(s: Server, out: &mut [u8]) -> Stepped
    ensures { Gives s (with_room (length out.old) (suspect_outcome s)) out.old result out.new }
{
    let mut row = s.row;
    let t = suspect_row(s.head, &mut row);
    finish(s, t, row, out)
}

// `check_row` on a record by value. Refused 21, 6.
pub fn check(s: Server, out: &mut [u8]) -> Stepped
    ensures { Gives s (with_room (length out.old) (check_outcome s)) out.old result out.new }
{
    let t = check_row(s.head, &s.row);
    finish(s, t, s.row, out)
}
