// Packets (document 02, L1): the packet's length in two bytes, the total, then messages one after another. Nothing of a packet is given unless all of it
// is accepted.

#![tactic(auto)]

ghost use Rattle.std.specs.Prelude.{◌≡◌, Ok, true, ◌+◌, ◌*◌, ◌≤◌, length, drop};
ghost use Rattle.std.proofs.lemmas.List.Edits.{sets};
ghost use Rattle.packet.specs.Packet.{total_bytes, max_total, contents_of, pieces};
ghost use Rattle.packet.specs.Reading.{find_in, next_found, next_of, part_of};
ghost use Rattle.packet.specs.Packing.{packed_bytes, packed, pack_of, buffer_after};
ghost use Rattle.packet.specs.Says.{next_says, packet_says, pack_says};
ghost use Rattle.packet.specs.Inner.{size_in, walked, judged, total_of, Reached};
ghost use Rattle.wire.specs.Says.{written_says};

use ids::Refusal;
use wire::Message;

// The bytes of the total, and so the place of the first message.
pub const TOTAL_BYTES: usize = 2;

// The largest total.
pub const MAX_TOTAL: usize = ids::MAX_SHORT as usize;

// The least length field that the walk goes by.
const LEAST_LENGTH: usize = 4;

fn join(lo: u8, hi: u8) -> usize
    ensures { result ≡ lo + 256 * hi }
{
    usize::from(u16::from_le_bytes([lo, hi]))
}

// The bytes of the message at a place, by its length field; 0 where no message fits.
fn size_at(bytes: &[u8], at: usize) -> usize
    requires { at ≤ length bytes.now }
    ensures { result ≡ size_in (drop at bytes.now) }
{
    let left = bytes.len() - at;
    if left < LEAST_LENGTH {
        return 0;
    }
    let size = join(bytes[at], bytes[at + 1]);
    if size < LEAST_LENGTH {
        return 0;
    }
    if left < size {
        return 0;
    }
    size
}

// The walks here go from message to message by their length fields: no `for` or iterator over places says that more plainly.

// Whether the messages from a place on, walked by their length fields, end where the bytes do.
fn walks(bytes: &[u8], from: usize) -> bool
    requires { from ≤ length bytes.now }
    ensures { result ≡ walked (drop from bytes.now) }
{
    let mut at = from;
    let mut size = size_at(bytes, from);
    while size != 0 {
        at += size;
        size = size_at(bytes, at);
    }
    at == bytes.len()
}

// The first refusal of the messages from a place on, which the walk has passed.
fn first_bad(bytes: &[u8], from: usize) -> Result<(), Refusal>
    requires { (from ≤ length bytes.now) × (walked (drop from bytes.now) ≡ true) }
    ensures { result ≡ judged (contents_of (drop from bytes.now)) }
{
    let mut at = from;
    while at < bytes.len() {
        let end = at + size_at(bytes, at);
        wire::read(&bytes[at..end])?;
        at = end;
    }
    Ok(())
}

// 22 by the walk, then the first bad message's refusal.
fn judge(bytes: &[u8], from: usize) -> Result<(), Refusal>
    requires { from ≤ length bytes.now }
    ensures { result ≡ judged (contents_of (drop from bytes.now)) }
{
    if !walks(bytes, from) {
        return Err(Refusal::PacketMalformed);
    }
    first_bad(bytes, from)
}

// The total; 0 for under two bytes, a total under 2, or one above the bytes lent.
fn total_of(packet: &[u8]) -> usize
    ensures { result ≡ total_of packet.now }
{
    if packet.len() < TOTAL_BYTES {
        return 0;
    }
    let total = join(packet[0], packet[1]);
    if total < TOTAL_BYTES {
        return 0;
    }
    if packet.len() < total {
        return 0;
    }
    total
}

// The first place from `at` on where a message starts or the packet ends.
fn reach(bytes: &[u8], at: usize) -> usize
    requires { (at ≤ length bytes.now) × (total_bytes ≤ length bytes.now) × (judged (contents_of (drop total_bytes bytes.now)) ≡ Ok tt) }
    ensures { (at ≤ result) × Reached bytes.now at result }
{
    let mut place = TOTAL_BYTES;
    while place < at {
        place += size_at(bytes, place);
    }
    place
}

// What is at a place of a packet whose messages are all accepted.
fn message_at(bytes: &[u8], at: usize) -> Result<Option<(Message, usize)>, Refusal>
    requires { (total_bytes ≤ length bytes.now) × (judged (contents_of (drop total_bytes bytes.now)) ≡ Ok tt) }
    ensures { result ≡ next_found at (find_in total_bytes (pieces (contents_of (drop total_bytes bytes.now))) at) }
{
    if bytes.len() < at {
        return Err(Refusal::PacketMalformed);
    }
    let place = reach(bytes, at);
    if place != at {
        return Err(Refusal::PacketMalformed);
    }
    let end = place + size_at(bytes, place);
    if place == bytes.len() {
        return Ok(None);
    }
    // No refusal is met: the packet was judged.
    let (m, _) = wire::read(&bytes[place..end])?;
    Ok(Some((m, end)))
}

// The message at a place of the packet with the place behind it, or `None` where the packet ends. The packet is judged whole first, and bytes behind it are
// not looked at.
pub fn next_at(packet: &[u8], at: usize) -> Result<Option<(Message, usize)>, Refusal>
    ensures value { result ≡ next_of packet.now at }
    ensures numbers { next_says result ≡ packet_says packet.now at }
{
    let total = total_of(packet);
    if total == 0 {
        return Err(Refusal::PacketMalformed);
    }
    let whole = &packet[0..total];
    judge(whole, TOTAL_BYTES)?;
    message_at(whole, at)
}

// The part of the packet from a place to the one behind the message that was given there, else an empty one. No byte is copied.
fn part_of(packet: &[u8], at: usize, next: Result<Option<(Message, usize)>, Refusal>) -> &[u8]
    requires { next ≡ next_of packet.now at }
    ensures { result.now ≡ part_of packet.now at }
{
    match next {
        Ok(Some((_, end))) => &packet[at..end],
        Ok(None) => &packet[0..0],
        Err(_) => &packet[0..0],
    }
}

// The part of the packet that the message at a place came from, empty where no message is given.
pub fn part_at(packet: &[u8], at: usize) -> &[u8]
    ensures { result.now ≡ part_of packet.now at }
{
    part_of(packet, at, next_at(packet, at))
}

// A reader that stands on a lent packet, at the place of its next message. It holds the packet's slice and copies nothing:
//
//     let given = reader.next();
//     match given.next {
//         Ok(Some((m, behind))) => { .. m .. given.part .. reader = reader.moved(behind); }
//         Ok(None) => ..
//         Err(e) => ..
//     }
#[derive(Clone, Copy)]
pub struct Reader<'a> {
    pub packet: &'a [u8],
    pub at: usize,
}

// What a reader gives: the next message with the place behind it, and the part of the packet that it came from.
#[derive(Clone, Copy)]
pub struct Given<'a> {
    pub next: Result<Option<(Message, usize)>, Refusal>,
    pub part: &'a [u8],
}

impl<'a> Reader<'a> {
    // A reader at the packet's first message.
    pub fn new(packet: &'a [u8]) -> Reader<'a>
        ensures { (result.packet ≡ packet.entry) × (result.at ≡ total_bytes) }
    {
        Reader {
            packet,
            at: TOTAL_BYTES,
        }
    }

    // The next message, and its part of the packet.
    pub fn next(self) -> Given<'a>
        ensures { (result.next ≡ next_of self.entry.packet.now self.entry.at) × (result.part.now ≡ part_of self.entry.packet.now self.entry.at) × (next_says result.next ≡ packet_says self.entry.packet.now self.entry.at) }
    {
        let next = next_at(self.packet, self.at);
        let part = part_of(self.packet, self.at, next);
        Given { next, part }
    }

    // The reader at another place, such as the one behind the message that it gave.
    pub fn moved(self, at: usize) -> Reader<'a>
        ensures { (result.packet ≡ self.entry.packet) × (result.at ≡ at) }
    {
        Reader {
            packet: self.packet,
            at,
        }
    }
}

// Writes the total and then the bytes at the start of `out`.
fn put_packet(bytes: &[u8], out: &mut [u8])
    requires { (packed_bytes bytes.now ≤ length out.old) × (packed_bytes bytes.now ≤ max_total) }
    ensures { out.new ≡ sets out.old 0 (packed bytes.now) }
{
    let total = TOTAL_BYTES + bytes.len();
    out[..TOTAL_BYTES].copy_from_slice(&(total as u16).to_le_bytes());
    // A loop, since copying a part of any length would make the archive for C need memmove, which a host may lack.
    for i in 0..bytes.len() {
        out[TOTAL_BYTES + i] = bytes[i];
    }
}

// Packs messages that stand one after another, as a step wrote them. The bytes behind the packet stay, and a refusal changes none.
pub fn pack(bytes: &[u8], out: &mut [u8]) -> Result<usize, Refusal>
    ensures value { (result ≡ pack_of bytes.now (length out.old)) × (out.new ≡ buffer_after bytes.now out.old) }
    ensures numbers { written_says result ≡ pack_says bytes.now (length out.old) }
{
    if bytes.len() > MAX_TOTAL - TOTAL_BYTES {
        return Err(Refusal::PacketMalformed);
    }
    judge(bytes, 0)?;
    let total = TOTAL_BYTES + bytes.len();
    if out.len() < total {
        return Err(Refusal::RoomShort);
    }
    put_packet(bytes, out);
    Ok(total)
}
