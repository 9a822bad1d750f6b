// The gallery program: a script on standard input, what it prints on standard output. Document 01, 'The gallery script'. Where reading or
// writing fails, standard error says so and the program ends there, with status 0.

#![tactic(auto)]

ghost use Rattle.std.specs.Prelude.{◌≡◌, true, ◌≤◌, length};
ghost use Rattle.console.specs.Fits.{Fits};
ghost use Rattle.script.specs.State.{valid};
ghost use Rattle.script_stream.specs.Answered.{Answered};
ghost use Rattle.script.specs.Calls.{max_ending};

use console::Input;
use std::io;

// What reading gave is answered. Whether to go on.
fn answer(
    rt: &(impl Print + Eprint),
    w: &mut [u32],
    part: &[u8],
    input: Input,
    out: &mut [u8],
) -> bool
    requires { (valid w.old ≡ true) × (max_ending ≤ length out.old) × Fits (length part.now) input }
    ensures { (valid w.new ≡ true) × (result ≡ true → Answered w.old part.now input w.new) }
{
    match input {
        Input::Failed => false,
        Input::End => {
            script_stream::finish(rt, w, out);
            false
        }
        Input::Bytes(n) => script_stream::answer_part(rt, w, &part[0..n], out),
    }
}

// Part by part. A proved loop has to end, and nothing says that the input does: so it counts up to a number that no run reaches.
fn run(rt: &(impl io::Input + Print + Eprint), w: &mut [u32], part: &mut [u8], out: &mut [u8])
    requires { (valid w.old ≡ true) × (max_ending ≤ length out.old) }
{
    for _ in 0..u64::MAX {
        let input = script_stream::read_part(rt, w, part);
        if !answer(rt, w, part, input, out) {
            return;
        }
    }
}

fn main(rt: HostRuntime) {
    let mut state = script_stream::start();
    let mut part = console::large_buffer();
    let mut out = console::large_buffer();
    run(&rt, &mut state, &mut part, &mut out);
}
