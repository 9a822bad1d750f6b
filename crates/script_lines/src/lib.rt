// The lines of a script, read and printed: document 01, 'The gallery script'.

#![tactic(auto)]

ghost use Rattle.std.specs.Prelude.{◌≡◌, ◌+◌, ◌≤◌, ◌<◌, [], ◌∷◌, ◌++◌, length, drop};
ghost use Rattle.std.proofs.lemmas.List.Edits.{sets};
ghost use Rattle.ids.specs.Limits.{max_short};
ghost use Rattle.script_numbers.specs.Decimals.{decimal};
ghost use Rattle.script_lines.specs.Words.{same, word, spaced};
ghost use Rattle.script_lines.specs.Lines.{command_in, event_of, event_in, line_of, four_in, setting_in};
ghost use Rattle.script_lines.specs.Says.{line_says, event_says, first_says, setting_says};
ghost use Rattle.script_lines.specs.Printed.{header_line, ok_line, no_line, end_line, refused_line, word_of, number_of, event_line, four_words, setting_line};
ghost use Rattle.script_lines.specs.Inner.{names, field_at};

use ids::{ClientId, MAX_SHORT, Refusal, ServerId};
use system::{Event, MessageNumber, Setting};

// The bytes of the longest line that is read, without its newline.
pub const MAX_LINE: usize = 40;

// The word that an event line begins with; `Other` is any word that is no command: a case and no None, since an event line has to have one.
#[derive(Clone, Copy)]
pub enum Command {
    Try,
    Exit,
    Fall,
    Down,
    Up,
    Take,
    Drop,
    Miss,
    Check,
    Other,
}

// An event line: its event; an event of a client or server with a number too large for its type, so that there is none such;
// or no event. No Result: a simulation whose words are no valid one refuses the second before it says that nobody has the number.
#[derive(Clone, Copy)]
pub enum Line {
    Event(Event),
    Unknown,
    Bad,
}

// Whether two words are the same: `==` itself takes a word such as b"try" only as b"try".as_slice().
fn equal(a: &[u8], b: &[u8]) -> bool
    ensures { result ≡ same a.now b.now }
{
    a == b
}

// The place of the first space from `at` on, or the end.
fn word_end(line: &[u8], at: usize) -> usize
    requires { at ≤ length line.now }
    ensures { (result ≡ at + length (word (drop at line.now))) × (result ≤ length line.now) }
{
    for i in at..line.len() {
        if line[i] == b' ' {
            return i;
        }
    }
    line.len()
}

// The command that a word is.
fn command_in(w: &[u8]) -> Command
    ensures { result ≡ command_in w.now }
{
    if equal(w, b"try") {
        return Command::Try;
    }
    if equal(w, b"exit") {
        return Command::Exit;
    }
    if equal(w, b"fall") {
        return Command::Fall;
    }
    if equal(w, b"down") {
        return Command::Down;
    }
    if equal(w, b"up") {
        return Command::Up;
    }
    if equal(w, b"take") {
        return Command::Take;
    }
    if equal(w, b"drop") {
        return Command::Drop;
    }
    if equal(w, b"miss") {
        return Command::Miss;
    }
    if equal(w, b"check") {
        return Command::Check;
    }
    Command::Other
}

// The line of this command and a number of 16 bits.
fn line_of_16(c: Command, x: u16) -> Line
    ensures { result ≡ line_of (event_of c x) }
{
    match c {
        Command::Try => Line::Event(Event::Try(ClientId(x))),
        Command::Exit => Line::Event(Event::Exit(ClientId(x))),
        Command::Fall => Line::Event(Event::Fall(ClientId(x))),
        Command::Down => Line::Event(Event::Down(ServerId(x))),
        Command::Up => Line::Event(Event::Up(ServerId(x))),
        Command::Take => Line::Event(Event::Take(MessageNumber(x as u32))),
        Command::Drop => Line::Event(Event::Drop(MessageNumber(x as u32))),
        Command::Miss => Line::Event(Event::Miss(ServerId(x))),
        Command::Check => Line::Event(Event::Check(ServerId(x))),
        Command::Other => Line::Bad,
    }
}

// The line of this command and a larger number: no client or server has it.
fn line_of_32(c: Command, x: u32) -> Line
    requires { max_short < x }
    ensures { result ≡ line_of (event_of c x) }
{
    match c {
        Command::Take => Line::Event(Event::Take(MessageNumber(x))),
        Command::Drop => Line::Event(Event::Drop(MessageNumber(x))),
        Command::Try | Command::Exit | Command::Fall => Line::Unknown,
        Command::Down | Command::Up | Command::Miss => Line::Unknown,
        // An arm of its own, so that a wrong answer (`unknown_is_bad`) can be that of this command alone.
        Command::Check => Line::Unknown,
        Command::Other => Line::Bad,
    }
}

// The line of this command and this number.
pub fn line_of(c: Command, x: u32) -> Line
    ensures { result ≡ line_of (event_of c x) }
{
    if x > MAX_SHORT {
        return line_of_32(c, x);
    }
    line_of_16(c, x as u16)
}

// The event of an event line, without its newline.
pub fn parse_event(line: &[u8]) -> Line
    ensures value { result ≡ line_of (event_in line.now) }
    ensures numbers { line_says result ≡ event_says (event_in line.now) }
{
    let n = line.len();
    if n > MAX_LINE {
        return Line::Bad;
    }
    let p = word_end(line, 0);
    if p == n {
        return Line::Bad;
    }
    let q = p + 1;
    match script_numbers::read_number(&line[q..n]) {
        Some(x) => line_of(command_in(&line[0..p]), x),
        None => Line::Bad,
    }
}

// The number before the first space from `at` on, and the place behind that space.
fn read_field(line: &[u8], at: usize) -> Option<(u32, usize)>
    requires { at ≤ length line.now }
    ensures { result ≡ field_at line.now at }
{
    let p = word_end(line, at);
    if p == line.len() {
        return None;
    }
    let x = script_numbers::read_number(&line[at..p])?;
    Some((x, p + 1))
}

// Four numbers from `at` to the line's end.
fn four_from(line: &[u8], at: usize) -> Option<Setting>
    requires { at ≤ length line.now }
    ensures { result ≡ four_in (drop at line.now) }
{
    let (n, a) = read_field(line, at)?;
    let (m, b) = read_field(line, a)?;
    let (f, c) = read_field(line, b)?;
    let clients = script_numbers::read_number(&line[c..])?;
    Some(Setting { n, m, f, clients })
}

// The setting of the first line, without its newline.
pub fn parse_setting(line: &[u8]) -> Option<Setting>
    ensures value { result ≡ setting_in line.now }
    ensures numbers { first_says result ≡ setting_says (setting_in line.now) }
{
    if line.len() > MAX_LINE {
        return None;
    }
    let p = word_end(line, 0);
    if p == line.len() {
        return None;
    }
    if !equal(&line[0..p], b"setting") {
        return None;
    }
    four_from(line, p + 1)
}

// What follows writes from place `at` on and returns the place behind what it wrote. It is for programs that print a run or
// a script, once they have seen that there is room for the longest.

// A number and the byte that ends it.
pub fn put_number(out: &mut [u8], at: usize, x: u32, end: u8) -> usize
    requires { at + length (decimal x) + 1 ≤ length out.old }
    ensures { (result ≡ at + length (decimal x) + 1) × (out.new ≡ sets out.old at (decimal x ++ (end ∷ []))) }
{
    let p = script_numbers::put_decimal(out, at, x);
    out[p] = end;
    p + 1
}

// A word.
pub fn put_bytes(out: &mut [u8], at: usize, w: &[u8]) -> usize
    requires { at + length w.now ≤ length out.old }
    ensures { (result ≡ at + length w.now) × (out.new ≡ sets out.old at w.now) }
{
    let end = at + w.len();
    out[at..end].copy_from_slice(w);
    end
}

// A word and a space.
fn put_word(out: &mut [u8], at: usize, w: &[u8]) -> usize
    requires { at + length w.now + 1 ≤ length out.old }
    ensures { (result ≡ at + length w.now + 1) × (out.new ≡ sets out.old at (w.now ++ (32 ∷ []))) }
{
    let p = put_bytes(out, at, w);
    out[p] = b' ';
    p + 1
}

// A setting's four numbers.
fn put_four(out: &mut [u8], at: usize, s: Setting) -> usize
    requires { at + length (spaced (four_words s)) ≤ length out.old }
    ensures { (result ≡ at + length (spaced (four_words s))) × (out.new ≡ sets out.old at (spaced (four_words s))) }
{
    let p = put_number(out, at, s.n, b' ');
    let q = put_number(out, p, s.m, b' ');
    let t = put_number(out, q, s.f, b' ');
    script_numbers::put_decimal(out, t, s.clients)
}

// The header of a run.
pub fn put_header(out: &mut [u8], at: usize, s: Setting) -> usize
    requires { at + length (header_line s) ≤ length out.old }
    ensures { (result ≡ at + length (header_line s)) × (out.new ≡ sets out.old at (header_line s)) }
{
    let p = put_word(out, at, b"gallery");
    let q = put_four(out, p, s);
    out[q] = b'\n';
    q + 1
}

// The line of an accepted event.
pub fn put_ok(out: &mut [u8], at: usize, number: u32, sent: u32, holders: u32) -> usize
    requires { at + length (ok_line number sent holders) ≤ length out.old }
    ensures { (result ≡ at + length (ok_line number sent holders)) × (out.new ≡ sets out.old at (ok_line number sent holders)) }
{
    let p = put_number(out, at, number, b' ');
    let q = put_word(out, p, b"ok");
    let t = put_number(out, q, sent, b' ');
    put_number(out, t, holders, b'\n')
}

// The line of a refused event.
pub fn put_no(out: &mut [u8], at: usize, number: u32, refusal: Refusal) -> usize
    requires { at + length (no_line number refusal) ≤ length out.old }
    ensures { (result ≡ at + length (no_line number refusal)) × (out.new ≡ sets out.old at (no_line number refusal)) }
{
    let p = put_number(out, at, number, b' ');
    let q = put_word(out, p, b"no");
    put_number(out, q, ids::code_of(refusal), b'\n')
}

// The last line of a run.
pub fn put_end(out: &mut [u8], at: usize, accepted: u32, holders: u32, downs: u32) -> usize
    requires { at + length (end_line accepted holders downs) ≤ length out.old }
    ensures { (result ≡ at + length (end_line accepted holders downs)) × (out.new ≡ sets out.old at (end_line accepted holders downs)) }
{
    let p = put_word(out, at, b"end");
    let q = put_number(out, p, accepted, b' ');
    let t = put_number(out, q, holders, b' ');
    put_number(out, t, downs, b'\n')
}

// The only line where the first line was refused.
pub fn put_refused(out: &mut [u8], at: usize, refusal: Refusal) -> usize
    requires { at + length (refused_line refusal) ≤ length out.old }
    ensures { (result ≡ at + length (refused_line refusal)) × (out.new ≡ sets out.old at (refused_line refusal)) }
{
    let p = put_word(out, at, b"no");
    put_number(out, p, ids::code_of(refusal), b'\n')
}

// The place of an event's command among the commands, each with a space behind it but the last.
fn name_at(e: Event) -> usize
    ensures { (result ≤ length names) × (word (drop result names) ≡ word_of e) }
{
    match e {
        Event::Try(_) => 0,
        Event::Exit(_) => 4,
        Event::Fall(_) => 9,
        Event::Down(_) => 14,
        Event::Up(_) => 19,
        Event::Take(_) => 22,
        Event::Drop(_) => 27,
        Event::Miss(_) => 32,
        Event::Check(_) => 37,
    }
}

// The number that an event names.
pub fn number_of(e: Event) -> u32
    ensures { result ≡ number_of e }
{
    match e {
        Event::Try(k) | Event::Exit(k) | Event::Fall(k) => k.0 as u32,
        Event::Down(j) | Event::Up(j) | Event::Miss(j) | Event::Check(j) => j.0 as u32,
        Event::Take(i) | Event::Drop(i) => i.0,
    }
}

// An event as a line of a script, without a newline.
pub fn put_event(out: &mut [u8], at: usize, e: Event) -> usize
    requires { at + length (event_line e) ≤ length out.old }
    ensures { (result ≡ at + length (event_line e)) × (out.new ≡ sets out.old at (event_line e)) }
{
    let names: &[u8] = b"try exit fall down up take drop miss check";
    let from = name_at(e);
    let to = word_end(names, from);
    let p = put_word(out, at, &names[from..to]);
    script_numbers::put_decimal(out, p, number_of(e))
}

// A setting as the first line of a script, without a newline.
pub fn put_setting(out: &mut [u8], at: usize, s: Setting) -> usize
    requires { at + length (setting_line s) ≤ length out.old }
    ensures { (result ≡ at + length (setting_line s)) × (out.new ≡ sets out.old at (setting_line s)) }
{
    let p = put_word(out, at, b"setting");
    put_four(out, p, s)
}
