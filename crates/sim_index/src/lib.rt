// The index of messages in transit by receiver, kept in lent words (specs/Index): document 02's L2. For `sim_indexed`, which keeps it beside
// the messages and knows what its words are.

#![tactic(auto)]

ghost use Rattle.std.specs.Prelude.{◌≡◌, suc, ◌+◌, ◌-◌, ◌<◌, ◌≤◌, length, get_or, set, take, drop};
ghost use Rattle.system.specs.Limits.{system_messages};
ghost use Rattle.sim_index.specs.Index.{receivers, numbers_from, marks_from, index_size};
ghost use Rattle.sim_index.specs.Calls.{start_of, first_of, inserted, deleted, entry_of, added, withdrawn, Sized, same as is_same};

const MESSAGES: usize = system::MAX_MESSAGES as usize;

// How many receivers there are: the servers and the clients that a system can have. Then where the numbers and the marks begin, and all the words.
pub const RECEIVERS: usize = system::MAX_SERVERS as usize + system::MAX_CLIENTS as usize;

const NUMBERS: usize = RECEIVERS;

const MARKS: usize = NUMBERS + MESSAGES;

pub const INDEX_WORDS: usize = MARKS + MESSAGES;

// An entry with its receiver: the receiver's place, the message's number, and 1 if the message is delivered, as the words have it, which a host keeps.
#[derive(Clone, Copy)]
pub struct Card {
    pub place: usize,
    pub number: u32,
    pub mark: u32,
}

// How many entries the receivers before place `p` have. It adds in 32 bits, so that the sum becomes vector code.
pub fn start(x: &[u32], p: usize) -> usize
    requires { (length x.now ≡ index_size) × (p ≤ receivers) × (start_of p x.now ≤ system_messages) }
    ensures { result ≡ start_of p x.now }
{
    let total: u32 = x[..p].iter().sum();
    total as usize
}

// The first word from place `from` to place `to` that is `v`, or `to`.
fn find(x: &[u32], from: usize, to: usize, v: u32) -> usize
    requires { (from ≤ to) × (to ≤ length x.now) }
    ensures { result ≡ from + first_of v (take (to - from) (drop from x.now)) }
{
    let found = x[from..to].iter().position(|y| *y == v);
    from + found.unwrap_or(to - from)
}

// A number and a mark stand at entry `at`: those from there on to entry `end` move back by one. Here and in `delete` one loop over both rows costs less
// than a `copy_within` of each.
fn insert(x: &mut [u32], at: usize, end: usize, number: u32, mark: u32)
    requires { (at ≤ end) × (end < system_messages) × (length x.old ≡ index_size) }
    ensures { x.new ≡ inserted (marks_from + at) (marks_from + end) mark (inserted (numbers_from + at) (numbers_from + end) number x.old) }
{
    for i in (at..end).rev() {
        x[NUMBERS + i + 1] = x[NUMBERS + i];
        x[MARKS + i + 1] = x[MARKS + i];
    }
    x[NUMBERS + at] = number;
    x[MARKS + at] = mark;
}

// Entry `at` is gone: those behind it to entry `last` move up by one.
fn delete(x: &mut [u32], at: usize, last: usize)
    requires { (at ≤ last) × (last < system_messages) × (length x.old ≡ index_size) }
    ensures { x.new ≡ deleted (marks_from + at) (marks_from + last) (deleted (numbers_from + at) (numbers_from + last) x.old) }
{
    for i in at..last {
        x[NUMBERS + i] = x[NUMBERS + i + 1];
        x[MARKS + i] = x[MARKS + i + 1];
    }
    x[NUMBERS + last] = 0;
    x[MARKS + last] = 0;
}

// The card joins the `len` entries.
pub fn add(x: &mut [u32], len: usize, c: Card)
    requires { Sized len c.place x.old × (len < system_messages) }
    ensures { x.new ≡ added len c x.old }
{
    let p = c.place;
    let at = start(x, p + 1);
    insert(x, at, len, c.number, c.mark);
    x[p] += 1;
}

// Which of the entries has this number, among those of the receiver at place `p`.
pub fn find_entry(x: &[u32], len: usize, p: usize, number: u32) -> usize
    requires { Sized len p x.now }
    ensures { result ≡ entry_of p number x.now }
{
    let from = start(x, p);
    let count = x[p] as usize;
    let at = find(x, NUMBERS + from, NUMBERS + from + count, number);
    at - NUMBERS
}

// The entry with this number is gone. It is there.
pub fn withdraw(x: &mut [u32], len: usize, p: usize, number: u32)
    requires { Sized len p x.old × (entry_of p number x.old < len) × (1 ≤ get_or x.old p 0) }
    ensures { x.new ≡ withdrawn len p number x.old }
{
    let at = find_entry(x, len, p, number);
    delete(x, at, len - 1);
    x[p] -= 1;
}

// The number and the mark of an entry.
pub fn number_at(x: &[u32], at: usize) -> u32
    requires { (length x.now ≡ index_size) × (at < system_messages) }
    ensures { result ≡ get_or x.now (numbers_from + at) 0 }
{
    x[NUMBERS + at]
}

pub fn mark_at(x: &[u32], at: usize) -> u32
    requires { (length x.now ≡ index_size) × (at < system_messages) }
    ensures { result ≡ get_or x.now (marks_from + at) 0 }
{
    x[MARKS + at]
}

pub fn put_mark(x: &mut [u32], at: usize, mark: u32)
    requires { (length x.old ≡ index_size) × (at < system_messages) }
    ensures { x.new ≡ set x.old (marks_from + at) mark }
{
    x[MARKS + at] = mark;
}

// Whether two indexes have the same words: word by word and not by `==` of slices, so that a wrong answer (`any_index`) can be that of one word.
pub fn same(x: &[u32], y: &[u32]) -> bool
    requires { length x.now ≡ length y.now }
    ensures { result ≡ is_same x.now y.now }
{
    (0..x.len()).all(|i| x[i] == y[i])
}
