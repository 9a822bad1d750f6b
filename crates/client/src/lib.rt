// The client: Figure 1, lines 1 to 25, on a head by value and a lent row of responses; and the same calls on a record by value.

#![tactic(auto)]

ghost use Rattle.std.specs.Prelude.{◌≡◌, Ok, true, ◌&&◌, ◌+◌, ◌*◌, ◌≤◌, ◌<◌, length, replicate};
ghost use Rattle.std.proofs.lemmas.List.Edits.{sets};
ghost use Rattle.ids.specs.Limits.{max_timestamp, valid_owner};
ghost use Rattle.wire.specs.Format.{message_bytes, size_of, bytes_of_all};
ghost use Rattle.wire.specs.Format as format;
ghost use Rattle.wire.specs.Step.{refused, stepped, with_room, sent_into};
ghost use Rattle.rows.specs.Rows.{Padded};
ghost use Rattle.client_responses.specs.Figure1.{is_remainder, is_trying, is_critical, fresh as fresh_of, enough, later as later_of, last_try, to_all, tries, exits, decide as decide_of, judge as judge_of, upon_response, upon_check, responds, checked};
ghost use Rattle.client_responses.specs.Row.{responses_in};
ghost use Rattle.client.specs.Record.{row_words, client_of, head_in, valid_sizes_up_to, fits_section, no_more, fits_timestamp, valid_up_to, valid, view};
ghost use Rattle.client.specs.Calls.{for_client, received, NewGives, begin_outcome, exit_outcome, message_outcome, Gives, turned};
ghost use Rattle.client.specs.Steps.{Answers};
ghost use Rattle.client.specs.Inner.{request, head_with, saw_in, valid_places, is_refused, settled, refused_new, yields};

use client_responses::Section;
use ids::{ClientId, Refusal, Request, ServerId, Timestamp};
use wire::{MESSAGE_BYTES, Message, Sent};

// The last timestamp, taken or seen, with which a client may still try.
pub const LAST_TRY: u32 = 4_294_967_293;

// The places of a record by value, one for each server that it can have, and the words of its row, two a place.
pub const MAX_PLACES: usize = ids::MAX_SERVERS as usize;

pub const ROW_WORDS: usize = 2 * MAX_PLACES;

// Client `id` with `n` servers and threshold `m`. Its responses stand in a row, a place for each server.
#[derive(Clone, Copy)]
pub struct Head {
    pub n: u16,
    pub m: u16,
    pub id: ClientId,
    pub section: Section,
    pub timestamp: Timestamp,
    pub seen: Timestamp,
}

// Head and row in one record.
#[derive(Clone, Copy)]
pub struct Client {
    pub head: Head,
    pub row: [u32; ROW_WORDS],
}

// What a call on a lent row answers: the head after it, and what was sent.
#[derive(Clone, Copy)]
pub struct Turned {
    pub head: Head,
    pub answer: Result<Sent, Refusal>,
}

// The same with the record.
#[derive(Clone, Copy)]
pub struct Stepped {
    pub client: Client,
    pub answer: Result<Sent, Refusal>,
}

fn valid_sizes(limit: u32, n: u16, m: u16) -> bool
    ensures { result ≡ valid_sizes_up_to limit n m }
{
    ids::within_limit(n as u32, limit) && ids::within_limit(m as u32, n as u32)
}

fn taken_timestamp(t: Timestamp) -> bool
    ensures { result ≡ fits_timestamp Section.Trying t }
{
    1 <= t.0 && t.0 < ids::MAX_TIMESTAMP
}

fn fits_timestamp(s: Section, t: Timestamp) -> bool
    ensures { result ≡ fits_timestamp s t }
{
    match s {
        Section::Remainder => true,
        Section::Trying => taken_timestamp(t),
        Section::Critical => taken_timestamp(t),
    }
}

// The request that a client in the trying or the critical section stands for.
fn request_of(h: Head) -> Request
    ensures { result ≡ request h }
{
    Request {
        client: h.id,
        timestamp: h.timestamp,
    }
}

fn enough_own(r: Request, row: &[u32], n: usize, m: usize) -> bool
    requires { 2 * n ≤ length row.now }
    ensures { result ≡ fits_section (enough m) Section.Critical r (responses_in row.now n) }
{
    m <= client_responses::own_count(r, row, n)
}

// Whether as many of the first `n` places are filled as may be in this section, with `m` for the threshold.
fn fits_section(s: Section, r: Request, row: &[u32], n: usize, m: usize) -> bool
    requires { 2 * n ≤ length row.now }
    ensures { result ≡ fits_section (enough m) s r (responses_in row.now n) && no_more s m (responses_in row.now n) }
{
    let found = client_responses::filled_count(row, n);
    match s {
        Section::Remainder => found == 0,
        Section::Trying => found < m,
        Section::Critical => enough_own(r, row, n, m) && found <= m,
    }
}

// What is left to test of a record whose numbers n, m and id are in range and whose row is in good order.
fn valid_places(h: Head, row: &[u32]) -> bool
    requires { Padded row.now h.n }
    ensures { result ≡ valid_places h row.now }
{
    let r = request_of(h);
    let n = h.n as usize;
    if client_responses::misfit_count(r, row, n) != 0 {
        return false;
    }
    fits_section(h.section, r, row, n, h.m as usize)
}

// Whether head and row are a valid record where there are at most so many servers: document 01's paragraph on broken records, turned round.
pub fn valid_row_up_to(limit: u32, h: Head, row: &[u32]) -> bool
    ensures { result ≡ valid_up_to limit (client_of h row.now) }
{
    if !valid_sizes(limit, h.n, h.m) {
        return false;
    }
    if !ids::valid_client(h.id) {
        return false;
    }
    if !fits_timestamp(h.section, h.timestamp) {
        return false;
    }
    if !rows::good_row(row, h.n as usize) {
        return false;
    }
    valid_places(h, row)
}

// The same up to today's limit.
pub fn valid_row(h: Head, row: &[u32]) -> bool
    ensures { result ≡ valid (client_of h row.now) }
{
    valid_row_up_to(ids::MAX_SERVERS, h, row)
}

// The answer of a refused call: the head as it was.
fn refuse(h: Head, e: Refusal) -> Turned
    ensures { result ≡ turned h (refused e) }
{
    Turned {
        head: h,
        answer: Err(e),
    }
}

// The larger of the two.
fn later(a: Timestamp, b: Timestamp) -> Timestamp
    ensures { result ≡ later_of a b }
{
    Timestamp(a.0.max(b.0))
}

// The largest timestamp that the client has taken or was told of.
fn latest(h: Head) -> Timestamp
    ensures { result ≡ later_of h.timestamp h.seen }
{
    later(h.timestamp, h.seen)
}

// The head, told of timestamp `t`.
fn saw(h: Head, t: Timestamp) -> Head
    ensures { result ≡ saw_in t h }
{
    Head {
        seen: later(h.seen, t),
        ..h
    }
}

// The answer with the head in another section and with another timestamp, once `count` messages of `size` bytes are sent.
fn moved(h: Head, section: Section, timestamp: Timestamp, count: usize, size: usize) -> Turned
    ensures { result ≡ record { head = head_with h section timestamp; answer = Ok (record { messages = count; bytes = size }) } }
{
    Turned {
        head: Head {
            section,
            timestamp,
            ..h
        },
        answer: Ok(Sent {
            messages: count,
            bytes: size,
        }),
    }
}

fn is_remainder(s: Section) -> bool
    ensures { result ≡ is_remainder s }
{
    matches!(s, Section::Remainder)
}

fn is_trying(s: Section) -> bool
    ensures { result ≡ is_trying s }
{
    matches!(s, Section::Trying)
}

fn is_critical(s: Section) -> bool
    ensures { result ≡ is_critical s }
{
    matches!(s, Section::Critical)
}

// Writes the message to each of the servers 1 to `n`.
fn send_all<F: Fn(ServerId) -> Message>(n: u16, out: &mut [u8], message: F)
    requires callable { F.IsAlwaysCallable message }
    requires plain { (j : ServerId) (m : Message) → F.post message j m → size_of m ≡ message_bytes }
    requires room { message_bytes * n ≤ length out.old }
    ensures { (f : ServerId → Message) → ((j : ServerId) (m : Message) → F.post message j m → m ≡ f j) → out.new ≡ sets out.old 0 (bytes_of_all (to_all f n)) }
{
    let mut at = 0;
    for j in 0..n {
        at = wire::put(out, at, message(ServerId(j + 1)));
    }
}

// Lines 1 to 5 of a valid record in the remainder section with two timestamps left above all it knows: for `begin_row`.
fn attempt(h: Head, row: &mut [u32], out: &mut [u8]) -> Turned
    requires { Padded row.old h.n × ((later_of h.timestamp h.seen).0 ≤ last_try) }
    ensures { Answers h row.old (stepped (tries h.n h.id (view (client_of h row.old)))) out.old result row.new out.new }
{
    let n = h.n as usize;
    if out.len() < MESSAGE_BYTES * n {
        return refuse(h, Refusal::RoomShort);
    }
    let t = Timestamp(latest(h).0 + 1);
    send_all(h.n, out, move |j| Message::Request(h.id, j, t));
    rows::clear(row, n);
    moved(h, Section::Trying, t, n, MESSAGE_BYTES * n)
}

// Lines 19 to 23 of a valid record in the critical section: for `exit_row`.
fn leave(h: Head, row: &mut [u32], out: &mut [u8]) -> Turned
    requires { Padded row.old h.n × (h.timestamp.0 < max_timestamp) }
    ensures { Answers h row.old (stepped (exits h.n h.id (view (client_of h row.old)))) out.old result row.new out.new }
{
    let n = h.n as usize;
    if out.len() < MESSAGE_BYTES * n {
        return refuse(h, Refusal::RoomShort);
    }
    let t = Timestamp(h.timestamp.0 + 1);
    send_all(h.n, out, move |j| Message::Release(h.id, j, h.timestamp));
    rows::clear(row, n);
    moved(h, Section::Remainder, t, n, MESSAGE_BYTES * n)
}

// Document 01's try: a new timestamp, and REQUEST with it to every server.
pub fn begin_row(h: Head, row: &mut [u32], out: &mut [u8]) -> Turned
    ensures { Answers h row.old (begin_outcome (client_of h row.old)) out.old result row.new out.new }
{
    if !valid_row(h, row) {
        return refuse(h, Refusal::InvalidRecord);
    }
    if !is_remainder(h.section) {
        return refuse(h, Refusal::WrongSection);
    }
    if LAST_TRY < latest(h).0 {
        return refuse(h, Refusal::TimestampsSpent);
    }
    attempt(h, row, out)
}

// The exit: a new timestamp, and RELEASE with the old one to every server.
pub fn exit_row(h: Head, row: &mut [u32], out: &mut [u8]) -> Turned
    ensures { Answers h row.old (exit_outcome (client_of h row.old)) out.old result row.new out.new }
{
    if !valid_row(h, row) {
        return refuse(h, Refusal::InvalidRecord);
    }
    if !is_critical(h.section) {
        return refuse(h, Refusal::WrongSection);
    }
    leave(h, row, out)
}

// Lines 14 to 18: a reply to each server that named an owner, and the responses forgotten.
fn yield_round(h: Head, row: &mut [u32], out: &mut [u8]) -> Turned
    requires { Padded row.old h.n }
    ensures { Answers h row.old (stepped (yields h (responses_in row.old h.n))) out.old result row.new out.new }
{
    let n = h.n as usize;
    let found = client_responses::filled_count(row, n);
    let size = MESSAGE_BYTES * found;
    if out.len() < size {
        return refuse(h, Refusal::RoomShort);
    }
    client_responses::send_round(request_of(h), row, h.n, out);
    rows::clear(row, n);
    moved(h, Section::Trying, h.timestamp, found, size)
}

// Lines 10 to 18, by the quorum's verdicts on the filled places and on the own ones: enter, or yield, or wait on.
fn decide(full: bool, own: bool, h: Head, row: &mut [u32], out: &mut [u8]) -> Turned
    requires { Padded row.old h.n }
    ensures { Answers h row.old (stepped (decide_of full own h.n h.id (view (client_of h row.old)) (responses_in row.old h.n))) out.old result row.new out.new }
{
    if !full {
        return moved(h, Section::Trying, h.timestamp, 0, 0);
    }
    if own {
        return moved(h, Section::Critical, h.timestamp, 0, 0);
    }
    yield_round(h, row, out)
}

// The same by a threshold: m responses are enough.
fn judge(h: Head, row: &mut [u32], out: &mut [u8]) -> Turned
    requires { Padded row.old h.n }
    ensures { Answers h row.old (stepped (judge_of (enough h.m) h.n h.id (view (client_of h row.old)) (responses_in row.old h.n))) out.old result row.new out.new }
{
    let n = h.n as usize;
    let m = h.m as usize;
    let full = m <= client_responses::filled_count(row, n);
    let own = m <= client_responses::own_count(request_of(h), row, n);
    decide(full, own, h, row, out)
}

fn is_refused(a: Result<Sent, Refusal>) -> bool
    ensures { result ≡ is_refused a }
{
    a.is_err()
}

// Lines 7 to 18 of a valid record and a RESPONSE for it. Where the yields have no room the place that was heard is put back.
fn upon_response(
    h: Head,
    row: &mut [u32],
    j: ServerId,
    o: Option<Request>,
    out: &mut [u8],
) -> Turned
    requires { (valid (client_of h row.old) ≡ true) × (1 ≤ j.0) × (j.0 ≤ h.n) × (valid_owner o ≡ true) }
    ensures { Answers h row.old (stepped (upon_response (enough h.m) h.n h.id j o (view (client_of h row.old)))) out.old result row.new out.new }
{
    if !is_trying(h.section) {
        return moved(h, h.section, h.timestamp, 0, 0);
    }
    let old = client_responses::hear(request_of(h), row, j, o);
    let r = judge(h, row, out);
    if is_refused(r.answer) {
        rows::put_request(row, (j.0 as usize) - 1, old);
        return r;
    }
    r
}

// Lines 24 and 25 of a valid record and a CHECK for it. The row is read by no line of it.
fn upon_check(h: Head, row: &[u32], j: ServerId, t: Timestamp, out: &mut [u8]) -> Turned
    requires { valid (client_of h row.now) ≡ true }
    ensures { Answers h row.now (stepped (upon_check h.id j t (view (client_of h row.now)))) out.old result row.now out.new }
{
    if t == h.timestamp {
        return moved(h, h.section, h.timestamp, 0, 0);
    }
    if out.len() < MESSAGE_BYTES {
        return refuse(h, Refusal::RoomShort);
    }
    let size = wire::put(out, 0, Message::Release(h.id, j, t));
    moved(h, h.section, h.timestamp, 1, size)
}

// The answer of a step that was given a head with more seen than `h` has: a refused call leaves `h`.
fn settle(h: Head, r: Turned) -> Turned
    ensures { result ≡ settled h r }
{
    if is_refused(r.answer) {
        return Turned { head: h, ..r };
    }
    r
}

// A valid record takes a RESPONSE for it, and has seen its timestamp in every section: for `message_row`, and for callers that know as much.
pub fn respond_row(
    h: Head,
    row: &mut [u32],
    j: ServerId,
    o: Option<Request>,
    out: &mut [u8],
) -> Turned
    requires { (valid (client_of h row.old) ≡ true) × (1 ≤ j.0) × (j.0 ≤ h.n) × (valid_owner o ≡ true) }
    ensures { Answers h row.old (stepped (responds (enough h.m) h.n h.id j o (view (client_of h row.old)))) out.old result row.new out.new }
{
    let t = client_responses::told(o);
    let r = upon_response(saw(h, t), row, j, o, out);
    settle(h, r)
}

// The same of a CHECK.
pub fn check_row(h: Head, row: &[u32], j: ServerId, t: Timestamp, out: &mut [u8]) -> Turned
    requires { valid (client_of h row.now) ≡ true }
    ensures { Answers h row.now (stepped (checked h.id j t (view (client_of h row.now)))) out.old result row.now out.new }
{
    let r = upon_check(saw(h, t), row, j, t, out);
    settle(h, r)
}

// Whether a message for client `k` from server `j` is for this client, from one of its servers.
fn for_client(h: Head, k: ClientId, j: ServerId) -> bool
    ensures { result ≡ for_client h k j }
{
    k == h.id && j.0 <= h.n
}

fn take_response(
    h: Head,
    row: &mut [u32],
    k: ClientId,
    j: ServerId,
    o: Option<Request>,
    out: &mut [u8],
) -> Turned
    requires { (valid (client_of h row.old) ≡ true) × (format.valid (Message.Response k j o) ≡ true) }
    ensures { Answers h row.old (received (client_of h row.old) (Message.Response k j o)) out.old result row.new out.new }
{
    if !for_client(h, k, j) {
        return refuse(h, Refusal::NotForClient);
    }
    respond_row(h, row, j, o, out)
}

fn take_check(
    h: Head,
    row: &[u32],
    k: ClientId,
    j: ServerId,
    t: Timestamp,
    out: &mut [u8],
) -> Turned
    requires { valid (client_of h row.now) ≡ true }
    ensures { Answers h row.now (received (client_of h row.now) (Message.Check k j t)) out.old result row.now out.new }
{
    if !for_client(h, k, j) {
        return refuse(h, Refusal::NotForClient);
    }
    check_row(h, row, j, t, out)
}

// A message to a valid record, all its numbers in range: for `message_row`.
fn receive(h: Head, row: &mut [u32], m: Message, out: &mut [u8]) -> Turned
    requires { (valid (client_of h row.old) ≡ true) × (format.valid m ≡ true) }
    ensures { Answers h row.old (received (client_of h row.old) m) out.old result row.new out.new }
{
    match m {
        Message::Request(_, _, _) => refuse(h, Refusal::NotForClient),
        Message::Yield(_, _, _) => refuse(h, Refusal::NotForClient),
        Message::Release(_, _, _) => refuse(h, Refusal::NotForClient),
        Message::Inquiry(_, _, _) => refuse(h, Refusal::NotForClient),
        Message::Response(k, j, o) => take_response(h, row, k, j, o, out),
        Message::Check(k, j, t) => take_check(h, row, k, j, t, out),
    }
}

// A message that came: RESPONSE and CHECK for this client, from one of its servers.
pub fn message_row(h: Head, row: &mut [u32], m: Message, out: &mut [u8]) -> Turned
    ensures { Answers h row.old (message_outcome (client_of h row.old) m) out.old result row.new out.new }
{
    if !valid_row(h, row) {
        return refuse(h, Refusal::InvalidRecord);
    }
    if !wire::valid_message(m) {
        return refuse(h, Refusal::NumberOutOfRange);
    }
    receive(h, row, m, out)
}

// The head of client `id` in the remainder section, with no timestamp taken or seen, whether or not these numbers are in range.
pub fn fresh_head(n: u16, m: u16, id: ClientId) -> Head
    ensures { result ≡ head_in n m id (fresh_of n) }
{
    Head {
        n,
        m,
        id,
        section: Section::Remainder,
        timestamp: Timestamp(0),
        seen: Timestamp(0),
    }
}

// The calls by value: the record's row is lent.
pub fn valid_client(c: Client) -> bool
    ensures { result ≡ valid c }
{
    valid_row(c.head, &c.row)
}

// A new client's record: its head, and every place empty.
fn fresh(n: u16, m: u16, id: ClientId) -> Client
    ensures { result ≡ client_of (head_in n m id (fresh_of n)) (replicate row_words 0) }
{
    Client {
        head: fresh_head(n, m, id),
        row: [0; ROW_WORDS],
    }
}

// What a refused `new` hands back.
fn no_client() -> Stepped
    ensures { result ≡ refused_new }
{
    Stepped {
        client: fresh(0, 0, ClientId(0)),
        answer: Err(Refusal::ParameterOutOfRange),
    }
}

// A new client with `n` servers and threshold `m`: in the remainder section, no timestamp taken or seen.
pub fn new(n: u16, m: u16, id: ClientId) -> Stepped
    ensures { NewGives n m id result }
{
    if !valid_sizes(ids::MAX_SERVERS, n, m) {
        return no_client();
    }
    if !ids::valid_client(id) {
        return no_client();
    }
    Stepped {
        client: fresh(n, m, id),
        answer: Ok(Sent {
            messages: 0,
            bytes: 0,
        }),
    }
}

// The answer of a call on a lent row, with the row that it left.
fn together(t: Turned, row: [u32; ROW_WORDS]) -> Stepped
    ensures { result ≡ record { client = client_of t.head row; answer = t.answer } }
{
    Stepped {
        client: Client { head: t.head, row },
        answer: t.answer,
    }
}

pub fn begin(c: Client, out: &mut [u8]) -> Stepped
    ensures { Gives c (with_room (length out.old) (begin_outcome c)) out.old result out.new }
{
    let mut row = c.row;
    let turned = begin_row(c.head, &mut row, out);
    together(turned, row)
}

pub fn exit(c: Client, out: &mut [u8]) -> Stepped
    ensures { Gives c (with_room (length out.old) (exit_outcome c)) out.old result out.new }
{
    let mut row = c.row;
    let turned = exit_row(c.head, &mut row, out);
    together(turned, row)
}

pub fn message(c: Client, m: Message, out: &mut [u8]) -> Stepped
    ensures { Gives c (with_room (length out.old) (message_outcome c m)) out.old result out.new }
{
    let mut row = c.row;
    let turned = message_row(c.head, &mut row, m, out);
    together(turned, row)
}
