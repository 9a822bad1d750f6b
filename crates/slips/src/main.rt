// The slips program: a gallery script on standard input; on standard output what the gallery program prints and, behind the line of each
// event, a slip for each server and each client (text_knowledge/specs/Knowledge). With the argument `last` the slips stand only behind the
// last event's line; with `mail` the messages in transit stand behind the slips of each event (text_knowledge/specs/Mail), and with `boxes` these
// by receiver (text_knowledge/specs/Boxes). Where reading or writing fails, standard error says so and the program ends there.

#![tactic(auto)]

ghost use Rattle.std.specs.Prelude.{◌≡◌, true, ◌≤◌, ◌<◌, length};
ghost use Rattle.console.specs.Fits.{Fits};
ghost use Rattle.sim_layout.specs.Layout.{valid as valid_simulation};
ghost use Rattle.script.specs.State.{valid};
ghost use Rattle.script_stream.specs.Answered.{Answered};
ghost use Rattle.script_stream.specs.Taken.{Taken};
ghost use Rattle.script_output.specs.Reader.{max_printed};
ghost use Rattle.script.specs.Calls.{max_ending};

use console::Input;
use std::env::{Env, FillError};
use std::io;

// Where slips stand, and what stands behind them.
#[derive(Clone, Copy)]
enum Wanted {
    Each,
    Last,
    Mail,
    Boxes,
}

// The slips of a simulation, and what is wanted behind them. They end within the buffer.
fn put_all(out: &mut [u8], w: &[u32], wanted: Wanted) -> usize
    requires { valid_simulation w.now ≡ true }
    ensures { result ≤ length out.new }
{
    match wanted {
        Wanted::Each => text_knowledge::put_slips(out, w),
        Wanted::Last => text_knowledge::put_slips(out, w),
        Wanted::Mail => text_knowledge::put_slips_mail(out, w),
        Wanted::Boxes => text_knowledge::put_slips_boxes(out, w),
    }
}

// The slips of a script that runs and has had an event. Whether all of them were written.
fn show(rt: &(impl Print + Eprint), w: &[u32], out: &mut [u8], wanted: Wanted) -> bool
    requires { valid w.now ≡ true }
{
    if w[script::STAGE] != script::RUNNING {
        return true;
    }
    if w[script::ANSWERED] == 0 {
        return true;
    }
    let end = put_all(out, &w[script::STATE_HEAD..script::STATE_WORDS], wanted);
    console::write_out(rt, rt, &out[0..end])
}

// Behind an event's line.
fn show_behind(rt: &(impl Print + Eprint), w: &[u32], out: &mut [u8], wanted: Wanted) -> bool
    requires { valid w.now ≡ true }
{
    let Wanted::Last = wanted else {
        return show(rt, w, out, wanted);
    };
    true
}

// Behind the last event's line.
fn show_last(rt: &(impl Print + Eprint), w: &[u32], out: &mut [u8], wanted: Wanted) -> bool
    requires { valid w.now ≡ true }
{
    let Wanted::Last = wanted else {
        return true;
    };
    show(rt, w, out, wanted)
}

// A line with its newline, or a piece of one, answered; then what is wanted behind an event line if one was answered with it.
fn answer_line(
    rt: &(impl Print + Eprint),
    w: &mut [u32],
    line: &[u8],
    out: &mut [u8],
    wanted: Wanted,
) -> bool
    requires { (valid w.old ≡ true) × (max_printed ≤ length out.old) }
    ensures { (valid w.new ≡ true) × (result ≡ true → Taken w.old line.now w.new) }
{
    let before = w[script::ANSWERED];
    if !script_stream::answer_part(rt, w, line, out) {
        return false;
    }
    if w[script::ANSWERED] == before {
        return true;
    }
    show_behind(rt, w, out, wanted)
}

// The index behind the line that `from` stands in, with its newline.
fn line_behind(part: &[u8], from: usize) -> usize
    requires { from < length part.now }
    ensures { (from < result) × (result ≤ length part.now) }
{
    let end = text_sheet::line_end(part, from);
    if end < part.len() {
        return end + 1;
    }
    end
}

// A part of the script, line by line.
fn answer_lines(
    rt: &(impl Print + Eprint),
    w: &mut [u32],
    part: &[u8],
    out: &mut [u8],
    wanted: Wanted,
) -> bool
    requires { (valid w.old ≡ true) × (max_printed ≤ length out.old) }
    ensures { (valid w.new ≡ true) × (result ≡ true → Taken w.old part.now w.new) }
{
    let mut from: usize = 0;
    while from < part.len() {
        let next = line_behind(part, from);
        if !answer_line(rt, w, &part[from..next], out, wanted) {
            return false;
        }
        from = next;
    }
    true
}

// A last line without its newline is answered. Whether all was written.
fn close_line(rt: &(impl Print + Eprint), w: &mut [u32], out: &mut [u8], wanted: Wanted) -> bool
    requires { (valid w.old ≡ true) × (max_printed ≤ length out.old) }
    ensures { valid w.new ≡ true }
{
    if w[script::LENGTH] == 0 {
        return true;
    }
    answer_line(rt, w, b"\n", out, wanted)
}

// The end of the script, behind what is wanted behind the last event's line.
fn finish(rt: &(impl Print + Eprint), w: &mut [u32], out: &mut [u8], wanted: Wanted)
    requires { (valid w.old ≡ true) × (max_ending ≤ length out.old) }
{
    if !close_line(rt, w, out, wanted) {
        return;
    }
    if !show_last(rt, w, out, wanted) {
        return;
    }
    script_stream::finish(rt, w, out);
}

// What reading gave is answered. Whether to go on.
fn answer(
    rt: &(impl Print + Eprint),
    w: &mut [u32],
    part: &[u8],
    input: Input,
    out: &mut [u8],
    wanted: Wanted,
) -> bool
    requires { (valid w.old ≡ true) × (max_ending ≤ length out.old) × Fits (length part.now) input }
    ensures { result ≡ true → (valid w.new ≡ true) × Answered w.old part.now input w.new }
{
    match input {
        Input::Failed => false,
        Input::End => {
            finish(rt, w, out, wanted);
            false
        }
        Input::Bytes(n) => answer_lines(rt, w, &part[0..n], out, wanted),
    }
}

// Part by part, as in `gallery`.
fn run(
    rt: &(impl io::Input + Print + Eprint),
    w: &mut [u32],
    part: &mut [u8],
    out: &mut [u8],
    wanted: Wanted,
)
    requires { (valid w.old ≡ true) × (max_ending ≤ length out.old) }
{
    for _ in 0..u64::MAX {
        let input = script_stream::read_part(rt, w, part);
        if !answer(rt, w, part, input, out, wanted) {
            return;
        }
    }
}

// Whether argument `i` was given. The program's own name is the first.
fn is_there(rt: &impl Env, i: usize) -> bool {
    !matches!(rt.arg(i, &mut []), Err(FillError::NotPresent))
}

// Whether the only argument is this word, which zeros fill up. A longer argument is none.
fn is_given(rt: &impl Env, word: &[u8; 6]) -> bool {
    if is_there(rt, 2) {
        return false;
    }
    let mut given = [0u8; 6];
    rt.arg(1, &mut given).is_ok() && given == *word
}

fn begin(rt: &(impl io::Input + Print + Eprint), wanted: Wanted) {
    let mut state = script_stream::start();
    let mut part = console::large_buffer();
    let mut out = console::large_buffer();
    run(rt, &mut state, &mut part, &mut out, wanted);
}

fn main(rt: HostRuntime) {
    if !is_there(&rt, 1) {
        begin(&rt, Wanted::Each);
        return;
    }
    if is_given(&rt, b"last\0\0") {
        begin(&rt, Wanted::Last);
        return;
    }
    if is_given(&rt, b"mail\0\0") {
        begin(&rt, Wanted::Mail);
        return;
    }
    if is_given(&rt, b"boxes\0") {
        begin(&rt, Wanted::Boxes);
        return;
    }
    console::write_out(&rt, &rt.stderr(), b"no 16 not last, mail or boxes\n");
}
