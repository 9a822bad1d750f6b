// The messages in transit, kept in lent words: a slot of seven for each. For the simulation and what shows one, whose words are valid.

#![tactic(auto)]

ghost use Rattle.std.specs.Prelude.{◌≡◌, true, [], ◌∷◌, ◌≤◌, ◌<◌, ◌+◌, ◌*◌, length, take, drop, get_or, replicate, eqb};
ghost use Rattle.std.proofs.lemmas.List.Edits.{sets};
ghost use Rattle.std.proofs.Math.Seq.{paste};
ghost use Rattle.ids.specs.Lists.{every};
ghost use Rattle.wire.specs.Format.{words as words_of, valid as valid_message};
ghost use Rattle.sim_transit.specs.Slots.{rows, slots, slot_at, valid_slot, ascending, valid_slots, messages_in, transit_size, slot_size};
ghost use Rattle.sim_transit.specs.Calls.{Sized, Ordered, first_slot, is_pending, is_numbered, message_at, marked, removed, posted};
ghost use Rattle.sim_transit.specs.Inner.{named_fields, Bound, PostsOne};
ghost use Rattle.system.specs.Limits.{system_messages, last_number};

use system::MessageNumber;
use wire::{Fields, Message};

// The words of a slot, how many slots there are, and the words of all.
pub const SLOT: usize = 7;

const MESSAGES: usize = system::MAX_MESSAGES as usize;

pub const TRANSIT_WORDS: usize = SLOT * MESSAGES;

fn named(f: Fields, n: u32, clients: u32) -> bool
    ensures { result ≡ named_fields n clients f }
{
    if !wire::valid_fields(f) {
        return false;
    }
    if !ids::within_limit(f.client as u32, clients) {
        return false;
    }
    if !ids::within_limit(f.server as u32, n) {
        return false;
    }
    f.owner as u32 <= clients
}

fn slot_valid(t: &[u32], i: usize, n: u32, clients: u32) -> bool
    requires { (length t.now ≡ transit_size) × (i < system_messages) }
    ensures { result ≡ valid_slot n clients (take slot_size (drop (slot_size * i) t.now)) }
{
    let at = SLOT * i;
    if 1 < t[at + 1] {
        return false;
    }
    let from = at + 2;
    let end = at + SLOT;
    match words::cross(&t[from..end]) {
        Some(f) => named(f, n, clients),
        None => false,
    }
}

fn slots_valid(t: &[u32], len: usize, n: u32, clients: u32) -> bool
    requires { Sized len t.now }
    ensures { result ≡ every (valid_slot n clients) (rows len t.now) }
{
    (0..len).all(|i| slot_valid(t, i, n, clients))
}

fn numbers_ascend(t: &[u32], len: usize, sent: u32) -> bool
    requires { Sized len t.now }
    ensures { result ≡ ascending 0 sent (slots len t.now) }
{
    let mut last: u32 = 0;
    for i in 0..len {
        let number = t[SLOT * i];
        if number <= last {
            return false;
        }
        if sent < number {
            return false;
        }
        last = number;
    }
    true
}

fn rest_zero(t: &[u32], len: usize) -> bool
    requires { Sized len t.now }
    ensures { result ≡ every (eqb 0) (drop (slot_size * len) t.now) }
{
    t[SLOT * len..].iter().all(|x| *x == 0)
}

// Whether the words are `len` messages in transit of a system with `n` servers and so many clients that has sent `sent` messages.
pub fn valid(t: &[u32], len: usize, sent: u32, n: u32, clients: u32) -> bool
    ensures { result ≡ valid_slots n clients sent len t.now }
{
    if t.len() != TRANSIT_WORDS {
        return false;
    }
    if MESSAGES < len {
        return false;
    }
    if !slots_valid(t, len, n, clients) {
        return false;
    }
    if !numbers_ascend(t, len, sent) {
        return false;
    }
    rest_zero(t, len)
}

// The first slot with this number or one above it. The numbers ascend, so each look halves the slots left. They stand seven words apart, and
// `partition_point` looks at all words.
fn search(t: &[u32], len: usize, number: u32) -> usize
    requires { Sized len t.now }
    ensures { Bound number len t.now result }
{
    let mut low: usize = 0;
    let mut high = len;
    while low < high {
        let middle = low + (high - low) / 2;
        if t[SLOT * middle] < number {
            low = middle + 1;
        } else {
            high = middle;
        }
    }
    low
}

// The slot of the pending message with this number, or `len`. For the simulation, whose words are valid.
pub fn find_pending(t: &[u32], len: usize, number: MessageNumber) -> usize
    requires { Sized len t.now × Ordered len t.now }
    ensures { result ≡ first_slot (is_pending number.0) (slots len t.now) }
{
    let i = search(t, len, number.0);
    if len <= i {
        return len;
    }
    if t[SLOT * i] != number.0 {
        return len;
    }
    if t[SLOT * i + 1] == 1 {
        return len;
    }
    i
}

// The slot of the message with this number, pending or delivered, or `len`. For the simulation, whose words are valid.
pub fn find_present(t: &[u32], len: usize, number: MessageNumber) -> usize
    requires { Sized len t.now × Ordered len t.now }
    ensures { result ≡ first_slot (is_numbered number.0) (slots len t.now) }
{
    let i = search(t, len, number.0);
    if len <= i {
        return len;
    }
    if t[SLOT * i] != number.0 {
        return len;
    }
    i
}

// The number of the message in slot `i`. For what shows a simulation, whose words are valid.
pub fn number_at(t: &[u32], i: usize) -> MessageNumber
    requires { (length t.now ≡ transit_size) × (i < system_messages) }
    ensures { result.0 ≡ (slot_at t.now i).number }
{
    MessageNumber(t[SLOT * i])
}

// Whether the message in slot `i` is delivered. For what shows a simulation, whose words are valid.
pub fn is_delivered(t: &[u32], i: usize) -> bool
    requires { (length t.now ≡ transit_size) × (i < system_messages) }
    ensures { result ≡ (slot_at t.now i).delivered }
{
    t[SLOT * i + 1] == 1
}

// The message in slot `i`, a used one. For the simulation, whose words are valid.
pub fn message_at(t: &[u32], i: usize) -> Message
    requires { (length t.now ≡ transit_size) × (i < system_messages) }
    ensures { result ≡ message_at t.now i }
{
    let from = SLOT * i + 2;
    let end = SLOT * i + SLOT;
    words::message_in(&t[from..end])
}

// The message in slot `i`, a used one, stays: it is delivered if `mark` is 1, and pending if it is 0. For the simulation, whose words are valid.
pub fn put_mark(t: &mut [u32], i: usize, mark: u32)
    requires { (length t.old ≡ transit_size) × (i < system_messages) }
    ensures { t.new ≡ marked i mark t.old }
{
    t[SLOT * i + 1] = mark;
}

// So many words from `from` on are those that stood seven words behind.
fn move_up(t: &mut [u32], from: usize, count: usize)
    requires { from + count + slot_size ≤ length t.old }
    ensures { t.new ≡ paste t.old from (drop (from + slot_size) t.old) count }
{
    t.copy_within(from + SLOT..from + SLOT + count, from);
}

fn clear(t: &mut [u32], at: usize)
    requires { at + slot_size ≤ length t.old }
    ensures { t.new ≡ sets t.old at (replicate slot_size 0) }
{
    t[at..at + SLOT].fill(0);
}

// The message in slot `i` of the `len` used ones is gone: those behind it move up. For the simulation, whose words are valid.
pub fn remove(t: &mut [u32], len: usize, i: usize)
    requires { Sized len t.old × (i < len) }
    ensures { t.new ≡ removed len i t.old }
{
    let behind = len - 1 - i;
    move_up(t, SLOT * i, SLOT * behind);
    clear(t, SLOT * i + SLOT * behind);
}

fn put_slot(t: &mut [u32], at: usize, number: u32, f: Fields)
    requires { at + slot_size ≤ length t.old }
    ensures { t.new ≡ sets t.old at (number ∷ (0 ∷ words_of f)) }
{
    t[at] = number;
    t[at + 1] = 0;
    t[at + 2] = f.kind as u32;
    t[at + 3] = f.client as u32;
    t[at + 4] = f.server as u32;
    t[at + 5] = f.timestamp;
    t[at + 6] = f.owner as u32;
}

// The message at place `from` of the bytes, stored from word `at` on; then the place behind it.
fn post_one(t: &mut [u32], at: usize, number: u32, bytes: &[u8], from: usize) -> usize
    requires { (at + slot_size ≤ length t.old) × (from ≤ length bytes.now) }
    ensures { PostsOne at number from bytes.now t.old t.new result }
{
    let p = wire::read_fields(&bytes[from..]);
    match p {
        Ok((f, used)) => {
            put_slot(t, at, number, f);
            from + used
        }
        Err(_) => from,
    }
}

// The first `count` messages of the bytes join the `len` that are kept, as sent after number `sent`. For the simulation, which knows that they fit.
pub fn post(t: &mut [u32], len: usize, sent: u32, bytes: &[u8], count: usize)
    requires { Sized (len + count) t.old × (sent + count ≤ last_number) × (length (messages_in count bytes.now) ≡ count) }
    ensures { t.new ≡ posted len sent (messages_in count bytes.now) t.old }
{
    let mut number = sent;
    let mut from: usize = 0;
    for i in 0..count {
        number += 1;
        from = post_one(t, SLOT * (len + i), number, bytes, from);
    }
}

// The message joins the `len` that are kept, as number `sent` + 1. For the simulation, which knows that it fits.
pub fn post_message(t: &mut [u32], len: usize, sent: u32, m: Message)
    requires { Sized (len + 1) t.old × (sent + 1 ≤ last_number) × (valid_message m ≡ true) }
    ensures { t.new ≡ posted len sent (m ∷ []) t.old }
{
    let f = wire::fields_of(m);
    put_slot(t, SLOT * len, sent + 1, f);
}
