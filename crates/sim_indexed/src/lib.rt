// The messages in transit with their index by receiver, kept in lent words: document 02's L2. Each change of a message changes its entry too, and a
// server's restart looks only at that server's entries. For the simulation and what shows one, whose words are valid; `valid` is for all.

#![tactic(auto)]

ghost use Rattle.std.specs.Prelude.{◌≡◌, true, [], ◌∷◌, ◌≤◌, ◌<◌, ◌+◌, ◌-◌, length};
ghost use Rattle.wire.specs.Format.{valid as valid_message};
ghost use Rattle.system.specs.Limits.{system_messages, system_servers, system_clients};
ghost use Rattle.sim_transit.specs.Slots.{transit_size, slots, slot_at, messages_in};
ghost use Rattle.sim_index.specs.Index.{receivers, index_size};
ghost use Rattle.sim_indexed.specs.Indexed.{valid_indexed, table, index, in_transit, card_of, afresh, entries_at, listed_at};
ghost use Rattle.sim_indexed.specs.Calls.{Held, Marks, Removes, Restarts, Posts, CanPost, Place};
ghost use Rattle.sim_indexed.specs.Inner.{place_by, Readable, with_index, Listing, Unlisted, EntryAt, Pends};

use ids::ServerId;
use sim_index::{Card, INDEX_WORDS};
use sim_transit::SLOT;
use system::MessageNumber;
use wire::Message;

// The table of slots stands first.
pub const TABLE: usize = sim_transit::TRANSIT_WORDS;

pub const INDEXED_WORDS: usize = TABLE + INDEX_WORDS;

fn place_by(kind: u32, client: u32, server: u32) -> usize
    requires { (1 ≤ client) × (1 ≤ server) }
    ensures { result ≡ place_by kind client server }
{
    if kind <= 4 {
        return server as usize - 1;
    }
    system::MAX_SERVERS as usize + (client as usize - 1)
}

// The entry of the message in slot `i` of a table, with its receiver.
fn card_at(t: &[u32], i: usize) -> Card
    requires { Readable i t.now × (length t.now ≡ transit_size) × (i < system_messages) }
    ensures { result ≡ card_of (slot_at t.now i) }
{
    let at = SLOT * i;
    let place = place_by(t[at + 2], t[at + 3], t[at + 4]);
    let number = t[at];
    let mark = t[at + 1];
    Card {
        place,
        number,
        mark,
    }
}

// The index made afresh.

fn list_into(x: &mut [u32], t: &[u32], i: usize)
    requires { Readable i t.now × (x.old ≡ afresh (slots i t.now)) }
    ensures { x.new ≡ afresh (slots (i + 1) t.now) }
{
    let c = card_at(t, i);
    sim_index::add(x, i, c);
}

// Whether the words are `len` messages in transit of a system with `n` servers and so many clients that has sent `sent` messages, and their index.
pub fn valid(t: &[u32], len: usize, sent: u32, n: u32, clients: u32) -> bool
    requires { (n ≤ system_servers) × (clients ≤ system_clients) }
    ensures { result ≡ valid_indexed n clients sent len t.now }
{
    if t.len() != INDEXED_WORDS {
        return false;
    }
    if !sim_transit::valid(&t[0..TABLE], len, sent, n, clients) {
        return false;
    }
    let mut made = [0u32; INDEX_WORDS];
    for i in 0..len {
        list_into(&mut made, &t[0..TABLE], i);
    }
    sim_index::same(&t[TABLE..INDEXED_WORDS], &made)
}

// Entry `i`, counted from 0, of the receiver at place `p`: a message's number, and whether it is delivered.
pub fn read_entry(t: &[u32], len: usize, p: usize, i: usize) -> Option<(MessageNumber, bool)>
    requires { Held len t.now × (p < receivers) }
    ensures { result ≡ listed_at (entries_at p (in_transit len t.now)) i }
{
    let from = sim_index::start(&t[TABLE..INDEXED_WORDS], p);
    let end = sim_index::start(&t[TABLE..INDEXED_WORDS], p + 1);
    if end - from <= i {
        return None;
    }
    let at = from + i;
    let number = sim_index::number_at(&t[TABLE..INDEXED_WORDS], at);
    let mark = sim_index::mark_at(&t[TABLE..INDEXED_WORDS], at);
    let delivered = mark == 1;
    Some((MessageNumber(number), delivered))
}

// One message changed.

// The message in slot `i`, a used one, is delivered, and stays.
pub fn mark(t: &mut [u32], len: usize, i: usize)
    requires { Held len t.old × (i < len) }
    ensures { Marks len i t.old t.new }
{
    let c = card_at(&t[0..TABLE], i);
    let at = sim_index::find_entry(&t[TABLE..INDEXED_WORDS], len, c.place, c.number);
    sim_index::put_mark(&mut t[TABLE..INDEXED_WORDS], at, 1);
    sim_transit::put_mark(&mut t[0..TABLE], i, 1);
}

// The message in slot `i` of the `len` used ones is gone.
pub fn remove(t: &mut [u32], len: usize, i: usize)
    requires { Held len t.old × (i < len) }
    ensures { Removes len i t.old t.new }
{
    let c = card_at(&t[0..TABLE], i);
    sim_index::withdraw(&mut t[TABLE..INDEXED_WORDS], len, c.place, c.number);
    sim_transit::remove(&mut t[0..TABLE], len, i);
}

// A restart.

// The message of entry `at` is pending, whether it was delivered or not.
fn pend(t: &mut [u32], len: usize, at: usize)
    requires { EntryAt len at t.old }
    ensures { Pends len at t.old t.new }
{
    if sim_index::mark_at(&t[TABLE..INDEXED_WORDS], at) == 0 {
        return;
    }
    let number = sim_index::number_at(&t[TABLE..INDEXED_WORDS], at);
    let i = sim_transit::find_present(&t[0..TABLE], len, MessageNumber(number));
    sim_index::put_mark(&mut t[TABLE..INDEXED_WORDS], at, 0);
    sim_transit::put_mark(&mut t[0..TABLE], i, 0);
}

// Server `j` has gone down: what was delivered to it is pending again. Only its entries are looked at.
pub fn restart(t: &mut [u32], len: usize, j: ServerId)
    requires { Held len t.old × Place j }
    ensures { Restarts len j t.old t.new }
{
    let p = j.0 as usize - 1;
    let from = sim_index::start(&t[TABLE..INDEXED_WORDS], p);
    let end = sim_index::start(&t[TABLE..INDEXED_WORDS], p + 1);
    for at in from..end {
        pend(t, len, at);
    }
}

// Messages sent.

fn list_slot(t: &mut [u32], i: usize)
    requires { Listing i t.old }
    ensures { t.new ≡ with_index (i + 1) t.old }
{
    let c = card_at(&t[0..TABLE], i);
    sim_index::add(&mut t[TABLE..INDEXED_WORDS], i, c);
}

// The messages in the slots from `from` to `to` join the index, which has those before.
fn list_slots(t: &mut [u32], from: usize, to: usize)
    requires { Unlisted from to t.old }
    ensures { t.new ≡ with_index to t.old }
{
    for i in from..to {
        list_slot(t, i);
    }
}

// The first `count` messages of the bytes join the `len` that are kept, as sent after number `sent`. They fit.
pub fn post(t: &mut [u32], len: usize, sent: u32, bytes: &[u8], count: usize)
    requires { CanPost len sent (messages_in count bytes.now) t.old × (length (messages_in count bytes.now) ≡ count) }
    ensures { Posts len sent (messages_in count bytes.now) t.old t.new }
{
    sim_transit::post(&mut t[0..TABLE], len, sent, bytes, count);
    list_slots(t, len, len + count);
}

// The message joins the `len` that are kept, as number `sent` + 1. It fits.
pub fn post_message(t: &mut [u32], len: usize, sent: u32, m: Message)
    requires { CanPost len sent (m ∷ []) t.old × (valid_message m ≡ true) }
    ensures { Posts len sent (m ∷ []) t.old t.new }
{
    sim_transit::post_message(&mut t[0..TABLE], len, sent, m);
    list_slot(t, len);
}
