// Messages and their bytes: document 01, 'Messages'.

#![tactic(auto)]

ghost use Rattle.std.specs.Prelude.{◌≡◌, ◌+◌, ◌*◌, ◌≤◌, length, take, drop};
ghost use Rattle.std.proofs.lemmas.List.Edits.{sets};
ghost use Rattle.wire.specs.Bytes.{little_endian, number};
ghost use Rattle.wire.specs.Format.{message_bytes, known, length_of, plain, answer, fields_of, message_of, kind_in, field_in, fields_in, bytes_of, bytes_of_fields, size_of, valid_named, valid, valid_rest, valid_fields, owner_of};
ghost use Rattle.wire.specs.Inner.{front, valid_response, valid_numbers};
ghost use Rattle.wire.specs.Calls.{read_of, numbers_of, write_of, buffer_after, lay_of, laid_in, write_numbers, numbers_after};
ghost use Rattle.wire.specs.Says.{parsed_says, numbers_says, read_says, written_says, write_says};
ghost use Rattle.ids.specs.Limits.{valid_owner};

use ids::{ClientId, Refusal, Request, ServerId, Timestamp};

// REQUEST, YIELD, RELEASE and INQUIRY go from the client to the server, RESPONSE and CHECK from the server to the client.
#[derive(Clone, Copy)]
pub enum Message {
    Request(ClientId, ServerId, Timestamp),
    Yield(ClientId, ServerId, Timestamp),
    Release(ClientId, ServerId, Timestamp),
    Inquiry(ClientId, ServerId, Timestamp),
    Response(ClientId, ServerId, Option<Request>),
    Check(ClientId, ServerId, Timestamp),
}

// A message's numbers, as wide as the format has them: the kind too is the format's number, since these may be the numbers of no message. The owner's
// client is 0 where the kind has none.
#[derive(Clone, Copy)]
pub struct Fields {
    pub kind: u16,
    pub client: u16,
    pub server: u16,
    pub timestamp: u32,
    pub owner: u16,
}

// What a step sent: how many messages, in how many bytes.
#[derive(Clone, Copy)]
pub struct Sent {
    pub messages: usize,
    pub bytes: usize,
}

fn get16(bytes: &[u8], at: usize) -> u16
    requires { at + 2 ≤ length bytes.now }
    ensures { result ≡ number (take 2 (drop at bytes.now)) }
{
    u16::from_le_bytes([bytes[at], bytes[at + 1]])
}

fn get32(bytes: &[u8], at: usize) -> u32
    requires { at + 4 ≤ length bytes.now }
    ensures { result ≡ number (take 4 (drop at bytes.now)) }
{
    u32::from_le_bytes([bytes[at], bytes[at + 1], bytes[at + 2], bytes[at + 3]])
}

fn put16(out: &mut [u8], at: usize, x: u16)
    requires { at + 2 ≤ length out.old }
    ensures { out.new ≡ sets out.old at (little_endian 2 x) }
{
    out[at..at + 2].copy_from_slice(&x.to_le_bytes());
}

fn put32(out: &mut [u8], at: usize, x: u32)
    requires { at + 4 ≤ length out.old }
    ensures { out.new ≡ sets out.old at (little_endian 4 x) }
{
    out[at..at + 4].copy_from_slice(&x.to_le_bytes());
}

// Whether this is one of the six kinds.
fn is_kind(kind: u16) -> bool
    ensures { result ≡ known kind }
{
    ids::within_limit(kind as u32, 6)
}

// The bytes of a message without an owner, and of a RESPONSE; the same as a message's first number.
pub const MESSAGE_BYTES: usize = 12;

const RESPONSE_BYTES: usize = MESSAGE_BYTES + 2;

const MESSAGE_LENGTH: u16 = MESSAGE_BYTES as u16;

const RESPONSE_LENGTH: u16 = RESPONSE_BYTES as u16;

// The bytes that a message of this kind has.
pub fn length_of(kind: u16) -> u16
    ensures { result ≡ length_of kind }
{
    if kind == 5 {
        RESPONSE_LENGTH
    } else {
        MESSAGE_LENGTH
    }
}

fn plain_fields(kind: u16, k: ClientId, j: ServerId, t: Timestamp) -> Fields
    ensures { result ≡ plain kind k j t }
{
    Fields {
        kind,
        client: k.0,
        server: j.0,
        timestamp: t.0,
        owner: 0,
    }
}

fn response_fields(k: ClientId, j: ServerId, o: Option<Request>) -> Fields
    ensures { result ≡ answer k j o }
{
    match o {
        None => plain_fields(5, k, j, Timestamp(0)),
        Some(q) => Fields {
            kind: 5,
            client: k.0,
            server: j.0,
            timestamp: q.timestamp.0,
            owner: q.client.0,
        },
    }
}

// A message's numbers.
pub fn fields_of(m: Message) -> Fields
    ensures { result ≡ fields_of m }
{
    match m {
        Message::Request(k, j, t) => plain_fields(1, k, j, t),
        Message::Yield(k, j, t) => plain_fields(2, k, j, t),
        Message::Release(k, j, t) => plain_fields(3, k, j, t),
        Message::Inquiry(k, j, t) => plain_fields(4, k, j, t),
        Message::Response(k, j, o) => response_fields(k, j, o),
        Message::Check(k, j, t) => plain_fields(6, k, j, t),
    }
}

// The owner with these numbers: nobody for 0 and 0.
pub fn owner_of(client: ClientId, timestamp: Timestamp) -> Option<Request>
    ensures { result ≡ owner_of client timestamp }
{
    if client.0 == 0 && timestamp.0 == 0 {
        return None;
    }
    Some(Request { client, timestamp })
}

// The message with these numbers; a kind that is not known is taken for CHECK's.
#[tactic(auto, unfolding(crate::specs::Format::message_of))]
pub fn message_of(f: Fields) -> Message
    ensures { result ≡ message_of f }
{
    let k = ClientId(f.client);
    let j = ServerId(f.server);
    let t = Timestamp(f.timestamp);
    match f.kind {
        1 => Message::Request(k, j, t),
        2 => Message::Yield(k, j, t),
        3 => Message::Release(k, j, t),
        4 => Message::Inquiry(k, j, t),
        5 => Message::Response(k, j, owner_of(ClientId(f.owner), t)),
        _ => Message::Check(k, j, t),
    }
}

fn valid_response(k: ClientId, j: ServerId, o: Option<Request>) -> bool
    ensures { result ≡ valid_response k j o }
{
    ids::valid_parties(k, j) && ids::valid_owner(o)
}

// Whether every number of the message is in its range.
#[tactic(auto, unfolding(crate::specs::Format::valid_up_to))]
pub fn valid_message(m: Message) -> bool
    ensures { result ≡ valid m }
{
    match m {
        Message::Request(k, j, t)
        | Message::Yield(k, j, t)
        | Message::Release(k, j, t)
        | Message::Inquiry(k, j, t)
        | Message::Check(k, j, t) => ids::valid_stamped(k, j, t),
        Message::Response(k, j, o) => valid_response(k, j, o),
    }
}

fn valid_owner_numbers(owner: u16, timestamp: u32) -> bool
    ensures { result ≡ valid_named (owner_of (record { 0 = owner }) (record { 0 = timestamp })) }
{
    if owner == 0 {
        return timestamp == 0;
    }
    timestamp != 0
}

fn valid_rest(kind: u16, timestamp: u32, owner: u16) -> bool
    ensures { result ≡ valid_rest kind timestamp owner }
{
    if kind == 5 {
        return valid_owner_numbers(owner, timestamp);
    }
    ids::valid_timestamp(Timestamp(timestamp)) && owner == 0
}

fn valid_numbers(f: Fields) -> bool
    ensures { result ≡ valid_numbers f }
{
    ids::valid_parties(ClientId(f.client), ServerId(f.server))
        && valid_rest(f.kind, f.timestamp, f.owner)
}

// Whether these numbers are a message's.
pub fn valid_fields(f: Fields) -> bool
    ensures { result ≡ valid_fields f }
{
    is_kind(f.kind) && valid_numbers(f)
}

fn owner_in(bytes: &[u8], kind: u16) -> u16
    requires { (length_of kind ≤ length bytes.now) × (kind ≡ kind_in bytes.now) }
    ensures { result ≡ field_in bytes.now 5 }
{
    if kind == 5 {
        get16(bytes, MESSAGE_BYTES)
    } else {
        0
    }
}

fn fields_in(bytes: &[u8], kind: u16) -> Fields
    requires { (length_of kind ≤ length bytes.now) × (kind ≡ kind_in bytes.now) }
    ensures { result ≡ fields_in bytes.now }
{
    let client = get16(bytes, 4);
    let server = get16(bytes, 6);
    let timestamp = get32(bytes, 8);
    let owner = owner_in(bytes, kind);
    Fields {
        kind,
        client,
        server,
        timestamp,
        owner,
    }
}

// The numbers of the message that `bytes` begins with, and the bytes it takes. Bytes behind it are not looked at.
pub fn read_fields(bytes: &[u8]) -> Result<(Fields, usize), Refusal>
    ensures value { result ≡ numbers_of (read_of bytes.now) }
    ensures numbers { numbers_says result ≡ read_says bytes.now }
{
    if bytes.len() < 4 {
        return Err(Refusal::HeaderShort);
    }
    let kind = get16(bytes, 2);
    if !is_kind(kind) {
        return Err(Refusal::KindUnknown);
    }
    let size = length_of(kind);
    if get16(bytes, 0) != size {
        return Err(Refusal::LengthWrong);
    }
    if bytes.len() < size as usize {
        return Err(Refusal::MessageCut);
    }
    let f = fields_in(bytes, kind);
    if !valid_fields(f) {
        return Err(Refusal::NumberOutOfRange);
    }
    Ok((f, size as usize))
}

// The message that `bytes` begins with, and the bytes it takes.
pub fn read(bytes: &[u8]) -> Result<(Message, usize), Refusal>
    ensures value { result ≡ read_of bytes.now }
    ensures numbers { parsed_says result ≡ read_says bytes.now }
{
    let (f, used) = read_fields(bytes)?;
    Ok((message_of(f), used))
}

fn put_front(out: &mut [u8], at: usize, f: Fields)
    requires { at + message_bytes ≤ length out.old }
    ensures { out.new ≡ sets out.old at (front f) }
{
    put16(out, at, length_of(f.kind));
    put16(out, at + 2, f.kind);
    put16(out, at + 4, f.client);
    put16(out, at + 6, f.server);
    put32(out, at + 8, f.timestamp);
}

fn put_fields(out: &mut [u8], at: usize, f: Fields) -> usize
    requires { at + length_of f.kind ≤ length out.old }
    ensures { (result ≡ at + length_of f.kind) × (out.new ≡ sets out.old at (bytes_of_fields f)) }
{
    put_front(out, at, f);
    if f.kind == 5 {
        put16(out, at + MESSAGE_BYTES, f.owner);
        return at + RESPONSE_BYTES;
    }
    at + MESSAGE_BYTES
}

// Writes `m` from place `at` on and returns the place behind it. For the steps that send several messages, once they know that all fit.
pub fn put(out: &mut [u8], at: usize, m: Message) -> usize
    requires { at + size_of m ≤ length out.old }
    ensures { (result ≡ at + size_of m) × (out.new ≡ sets out.old at (bytes_of m)) }
{
    put_fields(out, at, fields_of(m))
}

// The bytes that `m` takes.
pub fn size_of(m: Message) -> usize
    ensures { result ≡ size_of m }
{
    let f = fields_of(m);
    length_of(f.kind) as usize
}

// A message's numbers at the start of `out`, if there is room.
fn lay(f: Fields, out: &mut [u8]) -> Result<usize, Refusal>
    ensures { (result ≡ lay_of f (length out.old)) × (out.new ≡ laid_in f out.old) }
{
    if out.len() < length_of(f.kind) as usize {
        return Err(Refusal::RoomShort);
    }
    let n = put_fields(out, 0, f);
    Ok(n)
}

// Writes `m` at the start of `out`. The bytes behind it stay, and a refusal changes none.
pub fn write(m: Message, out: &mut [u8]) -> Result<usize, Refusal>
    ensures value { (result ≡ write_of m (length out.old)) × (out.new ≡ buffer_after m out.old) }
    ensures numbers { written_says result ≡ write_says (valid m) (size_of m) (length out.old) }
{
    if !valid_message(m) {
        return Err(Refusal::NumberOutOfRange);
    }
    lay(fields_of(m), out)
}

// The same of numbers that may be no message.
pub fn write_fields(f: Fields, out: &mut [u8]) -> Result<usize, Refusal>
    ensures value { (result ≡ write_numbers f (length out.old)) × (out.new ≡ numbers_after f out.old) }
    ensures numbers { written_says result ≡ write_says (valid_fields f) (length_of f.kind) (length out.old) }
{
    if !valid_fields(f) {
        return Err(Refusal::NumberOutOfRange);
    }
    lay(f, out)
}
