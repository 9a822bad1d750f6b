// A script of events run on the simulation, from bytes to bytes: document 01, 'The gallery script'.
// The input comes in parts of any size, and what it prints goes into lent buffers; between the calls the state is words that the
// caller lends.

#![tactic(auto)]

ghost use Rattle.std.specs.Prelude.{◌≡◌, true, Some, ◌≤◌, ◌+◌, [], length, get_or, set, replicate};
ghost use Rattle.std.proofs.lemmas.List.Edits.{sets};
ghost use Rattle.ids.specs.Lists.{every};
ghost use Rattle.script_lines.specs.Lines.{event_in, line_of, setting_in};
ghost use Rattle.script_lines.specs.Printed.{refused_line};
ghost use Rattle.script_output.specs.Reader.{closed, opened, worked, behind, taken, ended, last_line, finished, max_kept, max_printed};
ghost use Rattle.script.specs.State.{head_in, kept_in, simulation_in, counts_in, script_in, byte_word, valid_line, valid_run, valid_idle, view, valid as is_valid, state_size, stage_at, length_at, stage_opening, stage_running, stage_closed};
ghost use Rattle.script.specs.Calls.{new_answer, new_words, feed_answer, FeedLeaves, finish_answer, FinishLeaves, max_ending, progress_says, new_says, feed_says, finish_says};
ghost use Rattle.script.specs.Inner.{Sound, Ready, Reads, Prints, Does, Takes, FedAs, Closes, happened, passing, with_counts, without_line, reply_line};

use ids::Refusal;
use script_lines::Line;
use sim_changes::Effect;
use sim_run::Counts;
use system::{Event, Setting};

// The words of the head: the stage, the event lines answered and those accepted, the most holders at once, and the bytes of the line so far.
// Then the line, a word for each byte, and the simulation.
pub const STAGE: usize = 0;

pub const ANSWERED: usize = 1;

const ACCEPTED: usize = 2;

const HOLDING: usize = 3;

pub const LENGTH: usize = 4;

const LINE_FROM: usize = 5;

pub const STATE_HEAD: usize = LINE_FROM + LINE;

pub const STATE_WORDS: usize = STATE_HEAD + sim_layout::SIMULATION_WORDS;

// The stages: before the first line, while the script runs, and when its first line was refused or it has ended. Numbers, since the host keeps the
// state as words.
pub const OPENING: u32 = 0;

pub const RUNNING: u32 = 1;

pub const CLOSED: u32 = 2;

// The bytes of a line that are kept, one more than a line may have; the event lines that are answered; the longest printed line, and the
// longest end, which is two lines.
const MAX_KEPT: u32 = script_lines::MAX_LINE as u32 + 1;

const LINE: usize = MAX_KEPT as usize;

pub const MAX_LINES: u32 = 1_000_000;

pub const MAX_PRINTED: usize = 52;

pub const MAX_ENDING: usize = 2 * MAX_PRINTED;

// Bytes used and bytes written.
#[derive(Clone, Copy)]
pub struct Progress {
    pub used: usize,
    pub wrote: usize,
}

// Whether the words of the line are bytes.
fn bytes_valid(w: &[u32]) -> bool
    requires { length w.now ≡ state_size }
    ensures { result ≡ every byte_word (kept_in w.now) }
{
    w[LINE_FROM..STATE_HEAD].iter().all(|x| *x <= 255)
}

// Whether the words of the line are bytes, and 0 behind the line so far.
fn line_valid(w: &[u32]) -> bool
    requires { length w.now ≡ state_size }
    ensures { result ≡ valid_line (get_or w.now length_at 0) (kept_in w.now) }
{
    let len = w[LENGTH];
    if MAX_KEPT < len {
        return false;
    }
    if !bytes_valid(w) {
        return false;
    }
    sim_layout::is_blank(w, LINE_FROM + len as usize, STATE_HEAD)
}

// Whether the simulation and the counts are those of a script that runs.
fn run_valid(w: &[u32]) -> bool
    requires { length w.now ≡ state_size }
    ensures { result ≡ valid_run (head_in w.now) (simulation_in w.now) }
{
    let s = &w[STATE_HEAD..STATE_WORDS];
    if !sim_layout::valid(s) {
        return false;
    }
    if MAX_LINES < w[ANSWERED] {
        return false;
    }
    if w[ANSWERED] < w[ACCEPTED] {
        return false;
    }
    if w[HOLDING] < sim_layout::holders(s) {
        return false;
    }
    w[HOLDING] <= system::MAX_CLIENTS
}

// Whether they are those of one that does not: all 0.
fn idle_valid(w: &[u32]) -> bool
    requires { length w.now ≡ state_size }
    ensures { result ≡ valid_idle (head_in w.now) (simulation_in w.now) }
{
    if w[ANSWERED] != 0 {
        return false;
    }
    if w[ACCEPTED] != 0 {
        return false;
    }
    if w[HOLDING] != 0 {
        return false;
    }
    sim_layout::is_blank(w, STATE_HEAD, STATE_WORDS)
}

// Whether the words are the state of a script.
pub fn valid(w: &[u32]) -> bool
    ensures { result ≡ is_valid w.now }
{
    if w.len() != STATE_WORDS {
        return false;
    }
    if CLOSED < w[STAGE] {
        return false;
    }
    if !line_valid(w) {
        return false;
    }
    if w[STAGE] == RUNNING {
        return run_valid(w);
    }
    idle_valid(w)
}

// A byte behind the line so far.
fn keep(w: &mut [u32], b: u8)
    requires { Sound w.old }
    ensures { (view w.new ≡ record { stage = (view w.old).stage; line = behind (view w.old).line b }) × (is_valid w.new ≡ true) }
{
    let len = w[LENGTH];
    if MAX_KEPT <= len {
        return;
    }
    let at = LINE_FROM + len as usize;
    w[at] = b as u32;
    w[LENGTH] = len + 1;
}

// The line is done with.
fn clear_line(w: &mut [u32])
    requires { Sound w.old }
    ensures { w.new ≡ without_line w.old }
{
    let len = w[LENGTH] as usize;
    w[LINE_FROM..LINE_FROM + len].fill(0);
    w[LENGTH] = 0;
}

// The line so far, as bytes, which stand in the buffer.
fn line_of<'a>(w: &[u32], line: &'a mut [u8; LINE]) -> &'a [u8]
    requires { Sound w.now }
    ensures { result.now ≡ (view w.now).line }
{
    let len = w[LENGTH] as usize;
    for i in 0..len {
        line[i] = w[LINE_FROM + i] as u8;
    }
    &line[..len]
}

fn read_setting(w: &[u32]) -> Option<Setting>
    requires { Sound w.now }
    ensures { result ≡ setting_in (view w.now).line }
{
    script_lines::parse_setting(line_of(w, &mut [0u8; LINE]))
}

fn read_event(w: &[u32]) -> Line
    requires { Sound w.now }
    ensures { result ≡ line_of (event_in (view w.now).line) }
{
    script_lines::parse_event(line_of(w, &mut [0u8; LINE]))
}

// The first line is refused.
fn refuse(w: &mut [u32], out: &mut [u8], at: usize, x: Refusal) -> usize
    requires { Ready w.old out.old at × (get_or w.old stage_at 0 ≡ stage_opening) }
    ensures { Does w.old out.old at (record { now = closed; out = refused_line x }) w.new out.new result }
{
    w[STAGE] = CLOSED;
    script_lines::put_refused(out, at, x)
}

// The counts of the run, read and stored, with the event lines answered.
fn counts_in(w: &[u32]) -> Counts
    requires { length w.now ≡ state_size }
    ensures { result ≡ counts_in (head_in w.now) }
{
    Counts {
        accepted: w[ACCEPTED],
        holding: w[HOLDING],
    }
}

fn put_counts(w: &mut [u32], answered: u32, c: Counts)
    requires { length w.old ≡ state_size }
    ensures { w.new ≡ with_counts w.old answered c }
{
    w[ANSWERED] = answered;
    w[ACCEPTED] = c.accepted;
    w[HOLDING] = c.holding;
}

// The script runs, and nothing is answered yet.
fn start(w: &mut [u32], c: Counts)
    requires { length w.old ≡ state_size }
    ensures { w.new ≡ with_counts (set w.old stage_at stage_running) 0 c }
{
    w[STAGE] = RUNNING;
    put_counts(w, 0, c);
}

// The first line is a setting.
fn begin(w: &mut [u32], out: &mut [u8], at: usize, s: Setting) -> usize
    requires { Ready w.old out.old at × (get_or w.old stage_at 0 ≡ stage_opening) }
    ensures { Does w.old out.old at (opened (Some s)) w.new out.new result }
{
    match sim_run::new(&mut w[STATE_HEAD..STATE_WORDS], s) {
        Err(x) => refuse(w, out, at, x),
        Ok(counts) => {
            start(w, counts);
            script_lines::put_header(out, at, s)
        }
    }
}

// The first line.
fn open(w: &mut [u32], out: &mut [u8], at: usize) -> usize
    requires { Ready w.old out.old at × (get_or w.old stage_at 0 ≡ stage_opening) }
    ensures { Does w.old out.old at (opened (setting_in (view w.old).line)) w.new out.new result }
{
    match read_setting(w) {
        None => refuse(w, out, at, Refusal::BadLine),
        Some(s) => begin(w, out, at, s),
    }
}

// The answer to event number `number`.
fn put_reply(out: &mut [u8], at: usize, number: u32, reply: Result<Effect, Refusal>) -> usize
    requires { at + max_printed ≤ length out.old }
    ensures { Prints out.old at (reply_line number reply) out.new result }
{
    match reply {
        Err(x) => script_lines::put_no(out, at, number, x),
        Ok(effect) => script_lines::put_ok(out, at, number, effect.sent, effect.holders),
    }
}

// An event of a script that runs.
fn happen(w: &mut [u32], out: &mut [u8], at: usize, e: Event) -> usize
    requires { Ready w.old out.old at × Reads w.old }
    ensures { Does w.old out.old at (happened (script_in (head_in w.old) (simulation_in w.old)) e) w.new out.new result }
{
    let number = w[ANSWERED] + 1;
    let counts = counts_in(w);
    let went = sim_run::event(&mut w[STATE_HEAD..STATE_WORDS], counts, e);
    put_counts(w, number, went.counts);
    let reply = went.reply;
    put_reply(out, at, number, reply)
}

// A line that changes nothing.
fn pass(w: &mut [u32], out: &mut [u8], at: usize, x: Refusal) -> usize
    requires { Ready w.old out.old at × Reads w.old }
    ensures { Does w.old out.old at (passing (script_in (head_in w.old) (simulation_in w.old)) x) w.new out.new result }
{
    let number = w[ANSWERED] + 1;
    w[ANSWERED] = number;
    script_lines::put_no(out, at, number, x)
}

// An event line.
fn answer(w: &mut [u32], out: &mut [u8], at: usize) -> usize
    requires { Ready w.old out.old at × (get_or w.old stage_at 0 ≡ stage_running) }
    ensures { Does w.old out.old at (worked (view w.old).stage (view w.old).line) w.new out.new result }
{
    if MAX_LINES <= w[ANSWERED] {
        return at;
    }
    let line = read_event(w);
    match line {
        Line::Bad => pass(w, out, at, Refusal::BadLine),
        Line::Unknown => pass(w, out, at, Refusal::NoSuchParty),
        Line::Event(e) => happen(w, out, at, e),
    }
}

// The line is whole.
fn work(w: &mut [u32], out: &mut [u8], at: usize) -> usize
    requires { Ready w.old out.old at }
    ensures { Does w.old out.old at (worked (view w.old).stage (view w.old).line) w.new out.new result }
{
    if w[STAGE] == OPENING {
        return open(w, out, at);
    }
    if w[STAGE] == RUNNING {
        return answer(w, out, at);
    }
    at
}

// One byte of the input.
fn take(w: &mut [u32], out: &mut [u8], at: usize, b: u8) -> usize
    requires { Ready w.old out.old at }
    ensures { Takes out.old at (taken (view w.old) b) w.new out.new result }
{
    if b == b'\n' {
        let end = work(w, out, at);
        clear_line(w);
        return end;
    }
    keep(w, b);
    at
}

// A new script.
pub fn new(w: &mut [u32]) -> Result<Progress, Refusal>
    ensures value { (result ≡ new_answer w.old) × (w.new ≡ new_words w.old) }
    ensures numbers { progress_says result ≡ new_says w.old }
{
    if w.len() != STATE_WORDS {
        return Err(Refusal::ParameterOutOfRange);
    }
    clear(w);
    Ok(Progress { used: 0, wrote: 0 })
}

fn clear(w: &mut [u32])
    requires { length w.old ≡ state_size }
    ensures { w.new ≡ replicate state_size 0 }
{
    w.fill(0);
}

// The bytes of the input, one after another, while there is room for a line.
fn take_all(w: &mut [u32], input: &[u8], out: &mut [u8]) -> Result<Progress, Refusal>
    requires { Sound w.old }
    ensures { FedAs w.old input.now out.old w.new out.new result }
{
    let mut at: usize = 0;
    for (used, b) in input.iter().enumerate() {
        if out.len() - at < MAX_PRINTED {
            return Ok(Progress { used, wrote: at });
        }
        at = take(w, out, at, *b);
    }
    Ok(Progress {
        used: input.len(),
        wrote: at,
    })
}

// The next part of the input. Refused 21, 6.
pub fn feed(w: &mut [u32], input: &[u8], out: &mut [u8]) -> Result<Progress, Refusal>
    ensures value { (result ≡ feed_answer w.old input.now (length out.old)) × FeedLeaves w.old input.now out.old w.new out.new }
    ensures numbers { progress_says result ≡ feed_says w.old input.now (length out.old) }
{
    if !valid(w) {
        return Err(Refusal::InvalidRecord);
    }
    if out.len() < MAX_PRINTED {
        return Err(Refusal::RoomShort);
    }
    take_all(w, input, out)
}

// The last line, where its newline is missing.
fn last(w: &mut [u32], out: &mut [u8]) -> usize
    requires { Ready w.old out.old 0 }
    ensures { Does w.old out.old 0 (last_line (view w.old)) w.new out.new result }
{
    if w[LENGTH] == 0 {
        return 0;
    }
    work(w, out, 0)
}

// What the end prints.
fn end(w: &[u32], out: &mut [u8], at: usize) -> usize
    requires { Ready w.now out.old at }
    ensures { Prints out.old at (ended (view w.now).stage) out.new result }
{
    if w[STAGE] == OPENING {
        return script_lines::put_refused(out, at, Refusal::BadLine);
    }
    if w[STAGE] == RUNNING {
        return script_lines::put_end(
            out,
            at,
            w[ACCEPTED],
            w[HOLDING],
            sim_layout::most_down(&w[STATE_HEAD..STATE_WORDS]),
        );
    }
    at
}

// Nothing is read or printed any more.
fn seal(w: &mut [u32])
    requires { length w.old ≡ state_size }
    ensures { w.new ≡ set (replicate state_size 0) stage_at stage_closed }
{
    clear(w);
    w[STAGE] = CLOSED;
}

// The script ends: what stands of a line counts as the last one, the end is printed behind it, and the state is closed.
fn close(w: &mut [u32], out: &mut [u8]) -> usize
    requires { Sound w.old × (max_ending ≤ length out.old) }
    ensures { Closes w.old out.old w.new out.new result }
{
    let at = last(w, out);
    let wrote = end(w, out, at);
    seal(w);
    wrote
}

// The end of the input. Refused 21, 6.
pub fn finish(w: &mut [u32], out: &mut [u8]) -> Result<Progress, Refusal>
    ensures value { (result ≡ finish_answer w.old (length out.old)) × FinishLeaves w.old out.old w.new out.new }
    ensures numbers { progress_says result ≡ finish_says w.old (length out.old) }
{
    if !valid(w) {
        return Err(Refusal::InvalidRecord);
    }
    if out.len() < MAX_ENDING {
        return Err(Refusal::RoomShort);
    }
    let wrote = close(w, out);
    Ok(Progress { used: 0, wrote })
}
