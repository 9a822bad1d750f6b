// A server's owner, and its request queue in a lent row of words; the steps of Figure 1, lines 26 to 45 and 50 to 56, on them. The public
// functions with a `requires` are for the layers above, which have tested the record.

#![tactic(auto)]

ghost use Rattle.std.specs.Prelude.{◌≡◌, Some};
ghost use Rattle.ids.specs.Requests.{is_request, is_client};
ghost use Rattle.rows.specs.Rows.{queue_of, Padded};
ghost use Rattle.rows.specs.Queue.{timestamp_in, insert};
ghost use Rattle.server_votes.specs.Figure1.{candidates, promote as promote_of, delete as delete_of, act as act_of, compare as compare_of, receive as receive_of};
ghost use Rattle.server_votes.specs.Queues.{view};
ghost use Rattle.server_votes.specs.Places.{Moves, MovesOne, still as still_of, telling as telling_of, mails};
ghost use Rattle.server_votes.specs.Inner.{MovesAny, MovesTwo, informed, leading, overflowing as overflowing_of, joining, Informs, Followed, joined as joined_of};

use ids::{ClientId, Request, ServerId, Timestamp};
use wire::Message;

#[derive(Clone, Copy)]
pub enum Tag {
    Request,
    Yield,
    Release,
    Inquiry,
}

// A server's owner, and how many wait behind it: the first `len` places of its row.
#[derive(Clone, Copy)]
pub struct Votes {
    pub owner: Option<Request>,
    pub len: usize,
}

// What a part of a step leaves beside the row: the votes, unless the row is too short for them, and the messages to send, in order.
#[derive(Clone, Copy)]
pub struct Moved {
    pub votes: Votes,
    // A flag and no Result, since `Moves.sent` promises the messages of a step that finds no room too.
    pub full: bool,
    pub first: Option<Message>,
    pub second: Option<Message>,
    pub third: Option<Message>,
}

// Whether client `k` waits in the queue, and with which timestamp.
fn waiting(k: ClientId, row: &[u32], len: usize) -> Option<Timestamp>
    requires { Padded row.now len }
    ensures { result ≡ timestamp_in k (queue_of row.now len) }
{
    let at = rows::search(row, len, k);
    if at < len {
        return Some(rows::request_at(row, at).timestamp);
    }
    None
}

// Line 27: whether client `k` is owner or waits, and with which timestamp.
fn standing_of(k: ClientId, v: Votes, row: &[u32]) -> Option<Timestamp>
    requires { Padded row.now v.len }
    ensures { result ≡ timestamp_in k (candidates (view v row.now)) }
{
    match v.owner {
        None => waiting(k, row, v.len),
        Some(q) => {
            if q.client == k {
                return Some(q.timestamp);
            }
            waiting(k, row, v.len)
        }
    }
}

fn owns(o: Option<Request>, r: Request) -> bool
    ensures { result ≡ is_request r o }
{
    match o {
        None => false,
        Some(q) => ids::same_request(q, r),
    }
}

fn names(o: Option<Request>, k: ClientId) -> bool
    ensures { result ≡ is_client k o }
{
    match o {
        None => false,
        Some(q) => q.client == k,
    }
}

pub fn still(votes: Votes) -> Moved
    ensures { result ≡ still_of votes }
{
    Moved {
        votes,
        full: false,
        first: None,
        second: None,
        third: None,
    }
}

pub fn telling(votes: Votes, message: Message) -> Moved
    ensures { result ≡ telling_of votes message }
{
    Moved {
        votes,
        full: false,
        first: Some(message),
        second: None,
        third: None,
    }
}

// `h` is owner before a queue of `len`, and is told so.
fn lead(j: ServerId, h: Request, len: usize) -> Moved
    ensures { result ≡ leading j h len }
{
    let owner = Some(h);
    telling(Votes { owner, len }, Message::Response(h.client, j, owner))
}

// Lines 52 to 55: the head of the queue becomes owner; with an empty queue there is no owner.
fn promote(j: ServerId, row: &mut [u32], len: usize) -> Moved
    requires { Padded row.old len }
    ensures { MovesAny row.old row.new result (promote_of j (queue_of row.old len)) }
{
    if len == 0 {
        return still(Votes {
            owner: None,
            len: 0,
        });
    }
    let head = rows::request_at(row, 0);
    rows::remove(row, len, 0);
    lead(j, head, len - 1)
}

// Lines 38 to 40: `r` joins the queue, and the head of it becomes owner. A full row has room, since the head leaves it.
fn rotate(j: ServerId, r: Request, row: &mut [u32], len: usize) -> Moved
    requires { Padded row.old len }
    ensures { MovesAny row.old row.new result (promote_of j (insert r (queue_of row.old len))) }
{
    if len == 0 {
        return lead(j, r, 0);
    }
    let head = rows::request_at(row, 0);
    if ids::precedes(r, head) {
        return lead(j, r, len);
    }
    rows::remove(row, len, 0);
    let n = rows::insert(row, len - 1, r);
    lead(j, head, n)
}

// Lines 50 to 56. For the server's calls, which have tested the record.
pub fn delete(j: ServerId, r: Request, v: Votes, row: &mut [u32]) -> Moved
    requires { Padded row.old v.len }
    ensures { MovesOne v row.old row.new result (delete_of j r (view v row.old)) }
{
    if owns(v.owner, r) {
        return promote(j, row, v.len);
    }
    let len = rows::remove_request(row, v.len, r);
    still(Votes { len, ..v })
}

// Lines 35, 41 and 45: RESPONSE with the owner to client `k`, unless `k` is the owner.
fn inform(j: ServerId, k: ClientId, o: Option<Request>) -> Option<Message>
    ensures { mails result ≡ informed j k o }
{
    if names(o, k) {
        return None;
    }
    Some(Message::Response(k, j, o))
}

fn overflowing(votes: Votes, message: Message) -> Moved
    ensures { result ≡ overflowing_of votes message }
{
    Moved {
        votes,
        full: true,
        first: Some(message),
        second: None,
        third: None,
    }
}

// Lines 33 to 35 behind an owner: `r` waits, unless its client does already, and is told the owner.
fn join(j: ServerId, r: Request, v: Votes, row: &mut [u32]) -> Moved
    requires { Padded row.old v.len }
    ensures { MovesOne v row.old row.new result (joining j r (view v row.old)) }
{
    let message = Message::Response(r.client, j, v.owner);
    if rows::search(row, v.len, r.client) < v.len {
        return telling(v, message);
    }
    if row.len() < 2 * v.len + 2 {
        return overflowing(v, message);
    }
    let len = rows::insert(row, v.len, r);
    telling(Votes { len, ..v }, message)
}

// Lines 31 to 35.
fn act_request(j: ServerId, r: Request, v: Votes, row: &mut [u32]) -> Moved
    requires { Padded row.old v.len }
    ensures { MovesOne v row.old row.new result (act_of j Tag.Request r (view v row.old)) }
{
    if names(v.owner, r.client) {
        return still(v);
    }
    match v.owner {
        None => lead(j, r, v.len),
        Some(_) => join(j, r, v, row),
    }
}

// The client is told the owner, unless it is the owner, and nothing changes.
fn informing(j: ServerId, k: ClientId, votes: Votes) -> Moved
    ensures { Informs j k votes result }
{
    Moved {
        first: inform(j, k, votes.owner),
        ..still(votes)
    }
}

// Line 41 behind what was done before: the sender is told the owner.
fn followed(j: ServerId, k: ClientId, before: Moved) -> Moved
    ensures { Followed j k before result }
{
    Moved {
        second: inform(j, k, before.votes.owner),
        third: None,
        ..before
    }
}

// Lines 37 to 41.
fn act_yield(j: ServerId, r: Request, v: Votes, row: &mut [u32]) -> Moved
    requires { Padded row.old v.len }
    ensures { MovesTwo v row.old row.new result (act_of j Tag.Yield r (view v row.old)) }
{
    if owns(v.owner, r) {
        let before = rotate(j, r, row, v.len);
        return followed(j, r.client, before);
    }
    informing(j, r.client, v)
}

// Line 45.
fn act_inquiry(j: ServerId, r: Request, v: Votes, row: &[u32]) -> Moved
    requires { Padded row.now v.len }
    ensures { MovesTwo v row.now row.now result (act_of j Tag.Inquiry r (view v row.now)) }
{
    match v.owner {
        None => still(v),
        Some(_) => informing(j, r.client, v),
    }
}

// Lines 30 to 45.
fn act(j: ServerId, tag: Tag, r: Request, v: Votes, row: &mut [u32]) -> Moved
    requires { Padded row.old v.len }
    ensures { MovesTwo v row.old row.new result (act_of j tag r (view v row.old)) }
{
    match tag {
        Tag::Request => act_request(j, r, v, row),
        Tag::Yield => act_yield(j, r, v, row),
        Tag::Release => delete(j, r, v, row),
        Tag::Inquiry => act_inquiry(j, r, v, row),
    }
}

// One part of a step after another.
fn joined(before: Moved, after: Moved) -> Moved
    ensures { result ≡ joined_of before after }
{
    match before.first {
        None => after,
        Some(_) => Moved {
            first: before.first,
            second: after.first,
            third: after.second,
            ..after
        },
    }
}

// Lines 28 to 45, where the sender stands with timestamp `t`.
fn compare(j: ServerId, tag: Tag, r: Request, v: Votes, row: &mut [u32], t: Timestamp) -> Moved
    requires { Padded row.old v.len × (timestamp_in r.client (candidates (view v row.old)) ≡ Some t) }
    ensures { Moves v row.old row.new result (compare_of j tag r (view v row.old) t) }
{
    let now = r.timestamp;
    if now.0 < t.0 {
        return still(v);
    }
    if t.0 < now.0 {
        let old = Request { timestamp: t, ..r };
        let before = delete(j, old, v, row);
        let after = act(j, tag, r, before.votes, row);
        return joined(before, after);
    }
    act(j, tag, r, v, row)
}

// Lines 26 to 45. For the server's calls, which have tested the record.
pub fn receive(j: ServerId, tag: Tag, r: Request, v: Votes, row: &mut [u32]) -> Moved
    requires { Padded row.old v.len }
    ensures { Moves v row.old row.new result (receive_of j tag r (view v row.old)) }
{
    match standing_of(r.client, v, row) {
        None => act(j, tag, r, v, row),
        Some(t) => compare(j, tag, r, v, row, t),
    }
}
