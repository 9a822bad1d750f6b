// Who takes part, in what order requests are served, and why a call is refused.

#![tactic(auto)]

ghost use Rattle.std.specs.Prelude.{◌≡◌};
ghost use Rattle.ids.specs.Limits.{within, valid_client, valid_server, valid_timestamp, valid_request, valid_owner, valid_parties, valid_stamped};
ghost use Rattle.ids.specs.Order.{before};
ghost use Rattle.ids.specs.Refusals.{code};
ghost use Rattle.ids.specs.Requests.{same};

pub const MAX_CLIENT: u32 = 65_535;

pub const MAX_SERVERS: u32 = 255;

// The limit before document 02, L3, by which records from that time are judged.
pub const EARLIER_SERVERS: u32 = 31;

pub const MAX_TIMESTAMP: u32 = 4_294_967_295;

// The largest number of sixteen bits.
pub const MAX_SHORT: u32 = 65_535;

// Document 01's kiosk, keeper and ticket. Three types, so that passing one for another does not build.
#[derive(Clone, Copy, PartialEq, Eq)]
pub struct ClientId(pub u16);

#[derive(Clone, Copy, PartialEq, Eq)]
pub struct ServerId(pub u16);

#[derive(Clone, Copy, PartialEq, Eq)]
pub struct Timestamp(pub u32);

// A client with the timestamp of its attempt: Figure 1's pair (ci, t).
#[derive(Clone, Copy, PartialEq, Eq)]
pub struct Request {
    pub client: ClientId,
    pub timestamp: Timestamp,
}

// Why a call is refused; `code` gives each its number in document 01's table, and from 22 on in document 02.
#[derive(Clone, Copy)]
pub enum Refusal {
    HeaderShort,
    KindUnknown,
    LengthWrong,
    MessageCut,
    NumberOutOfRange,
    RoomShort,
    ParameterOutOfRange,
    Unsafe,
    Stalls,
    WrongSection,
    TimestampsSpent,
    NotForClient,
    NotForServer,
    QueueFull,
    NoOwner,
    BadLine,
    NoSuchParty,
    PartyDown,
    SystemFull,
    OwnerLives,
    InvalidRecord,
    PacketMalformed,
}

// Whether `x` is one of 1 to `max`.
pub fn within_limit(x: u32, max: u32) -> bool
    ensures { result ≡ within x max }
{
    1 <= x && x <= max
}

pub fn valid_client(k: ClientId) -> bool
    ensures { result ≡ valid_client k }
{
    within_limit(k.0 as u32, MAX_CLIENT)
}

pub fn valid_server(j: ServerId) -> bool
    ensures { result ≡ valid_server j }
{
    within_limit(j.0 as u32, MAX_SERVERS)
}

pub fn valid_timestamp(t: Timestamp) -> bool
    ensures { result ≡ valid_timestamp t }
{
    within_limit(t.0, MAX_TIMESTAMP)
}

pub fn valid_request(q: Request) -> bool
    ensures { result ≡ valid_request q }
{
    valid_client(q.client) && valid_timestamp(q.timestamp)
}

// The same of whom a server names as the owner of its vote, if anybody.
pub fn valid_owner(o: Option<Request>) -> bool
    ensures { result ≡ valid_owner o }
{
    match o {
        None => true,
        Some(q) => valid_request(q),
    }
}

pub fn valid_parties(k: ClientId, j: ServerId) -> bool
    ensures { result ≡ valid_parties k j }
{
    valid_client(k) && valid_server(j)
}

pub fn valid_stamped(k: ClientId, j: ServerId, t: Timestamp) -> bool
    ensures { result ≡ valid_stamped k j t }
{
    valid_parties(k, j) && valid_timestamp(t)
}

// Whether `a` is served before `b`: lower timestamp first, with equal timestamps lower client first. Derived, the order would go by client first, as the
// report's pair (ci, t) stands.
pub fn precedes(a: Request, b: Request) -> bool
    ensures { result ≡ before a b }
{
    if a.timestamp.0 == b.timestamp.0 {
        return a.client.0 < b.client.0;
    }
    a.timestamp.0 < b.timestamp.0
}

// Whether `a` and `b` are the same client with the same timestamp.
pub fn same_request(a: Request, b: Request) -> bool
    ensures { result ≡ same a b }
{
    a == b
}

// The refusal's number.
pub fn code_of(e: Refusal) -> u32
    ensures { result ≡ code e }
{
    match e {
        Refusal::HeaderShort => 1,
        Refusal::KindUnknown => 2,
        Refusal::LengthWrong => 3,
        Refusal::MessageCut => 4,
        Refusal::NumberOutOfRange => 5,
        Refusal::RoomShort => 6,
        Refusal::ParameterOutOfRange => 7,
        Refusal::Unsafe => 8,
        Refusal::Stalls => 9,
        Refusal::WrongSection => 10,
        Refusal::TimestampsSpent => 11,
        Refusal::NotForClient => 12,
        Refusal::NotForServer => 13,
        Refusal::QueueFull => 14,
        Refusal::NoOwner => 15,
        Refusal::BadLine => 16,
        Refusal::NoSuchParty => 17,
        Refusal::PartyDown => 18,
        Refusal::SystemFull => 19,
        Refusal::OwnerLives => 20,
        Refusal::InvalidRecord => 21,
        Refusal::PacketMalformed => 22,
    }
}
