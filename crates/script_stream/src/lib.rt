// A script as it streams: part by part from standard input, and what it prints to standard output as it comes. `gallery` and `slips`
// are over this. Its parts and buffers may be of any size (script_output/proofs/Cuts). The contracts say which bytes the state has taken in and
// what stands in the buffer to be written; that it is written, and what is read, is the system's. Where writing fails, standard error says so,
// and the answer is that nothing more is to be done.

#![tactic(auto)]

ghost use Rattle.std.specs.Prelude.{◌≡◌, true, ◌≤◌, ◌<◌, length};
ghost use Rattle.console.specs.Fits.{Fits, Some};
ghost use Rattle.console.specs.declared.Input.TheVariants.{End};
ghost use Rattle.script_output.specs.Reader.{empty, fed_within, max_printed};
ghost use Rattle.script.specs.State.{valid, view, state_size};
ghost use Rattle.script_stream.specs.Ended.{Ended};
ghost use Rattle.script_stream.specs.Over.{spent};
ghost use Rattle.script_stream.specs.Pieces.{Answers};
ghost use Rattle.script.specs.Calls.{FeedLeaves, max_ending};

use console::Input;
use std::io;

fn zeros() -> [u32; script::STATE_WORDS]
    ensures { state_size ≡ length result }
{
    [0; script::STATE_WORDS]
}

// The state of a script of which nothing is read yet.
pub fn start() -> [u32; script::STATE_WORDS]
    ensures { (valid result ≡ true) × (view result ≡ empty) }
{
    let mut w = zeros();
    let _ = script::new(&mut w);
    w
}

// Works what fits of a part, and writes out what that printed. The bytes worked, or 0 where writing failed.
fn answer_some(rt: &(impl Print + Eprint), w: &mut [u32], part: &[u8], out: &mut [u8]) -> usize
    requires { (valid w.old ≡ true) × (max_printed ≤ length out.old) }
    ensures { (result ≤ length part.now) × FeedLeaves w.old part.now out.old w.new out.new × (0 < result → result ≡ (fed_within (length out.old) (view w.old) part.now).used) }
{
    match script::feed(w, part, out) {
        Err(_) => 0,
        Ok(made) => {
            if console::write_out(rt, rt, &out[0..made.wrote]) {
                return made.used;
            }
            0
        }
    }
}

// The whole part, of a valid state and with room for a line. Whether all of it was answered.
pub fn answer_part(rt: &(impl Print + Eprint), w: &mut [u32], part: &[u8], out: &mut [u8]) -> bool
    requires { (valid w.old ≡ true) × (max_printed ≤ length out.old) }
    ensures { Answers w.old part.now out.old result w.new out.new }
{
    // A `while`: each turn goes as far as there was room for.
    let mut done: usize = 0;
    while done < part.len() {
        let used = answer_some(rt, w, &part[done..], out);
        if used == 0 {
            return false;
        }
        done += used;
    }
    true
}

// The end of the script, of a valid state and with room for two lines.
pub fn finish(rt: &(impl Print + Eprint), w: &mut [u32], out: &mut [u8])
    requires { (valid w.old ≡ true) × (max_ending ≤ length out.old) }
    ensures { Ended w.old out.old w.new out.new }
{
    if let Ok(made) = script::finish(w, out) {
        console::write_out(rt, rt, &out[0..made.wrote]);
    }
}

// Whether nothing more need be read: the first line was refused, or all event lines that are read are answered.
fn over(w: &[u32]) -> bool
    requires { valid w.now ≡ true }
    ensures { result ≡ spent (view w.now).stage }
{
    if w[script::STAGE] == script::CLOSED {
        return true;
    }
    if w[script::STAGE] == script::OPENING {
        return false;
    }
    script::MAX_LINES <= w[script::ANSWERED]
}

// The next part, of a valid state; the end where nothing more need be read, and then nothing is.
pub fn read_part(rt: &(impl io::Input + Eprint), w: &[u32], part: &mut [u8]) -> Input
    requires { valid w.now ≡ true }
    ensures { Fits (length part.new) result × Some result × (spent (view w.now).stage ≡ true → (result ≡ End) × (part.new ≡ part.old)) }
{
    if over(w) {
        return Input::End;
    }
    console::read_some(rt, part)
}
