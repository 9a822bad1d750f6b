// The commissioning screen: `commission n m f`, and `commission n f`, which proposes thresholds. What is said goes to standard error; the run that
// shows a setting unsafe goes to standard output as a gallery script, so that `bin/commission 3 2 1 | bin/gallery` plays it; one of more than
// 31 servers can only be read. Arguments that are not two or three numbers are refused 16, as a script's first line is.

#![tactic(auto)]

use ids::Refusal;
use quorum::Verdict;
use std::env::{Env, FillError};

// What is said of the setting.
fn say(rt: &HostRuntime, out: &mut [u8], n: u32, m: u32, f: u32) {
    let said = text_screen::put_report(out, n, m, f);
    console::write_out(rt, &rt.stderr(), &out[0..said]);
}

// Which thresholds are accepted.
fn say_thresholds(rt: &HostRuntime, out: &mut [u8], n: u32, f: u32) {
    let said = text_screen::put_proposal(out, n, f);
    console::write_out(rt, &rt.stderr(), &out[0..said]);
}

// The run of an unsafe setting.
fn show(rt: &HostRuntime, out: &mut [u8], n: u32, m: u32, f: u32) {
    if let Verdict::Unsafe(_, events) = quorum::check(n, m, f) {
        let end = text_screen::put_script(out, n, m, f, events);
        console::write_out(rt, rt, &out[0..end]);
    }
}

// Whether argument `i` was given. The program's own name is the first.
fn is_there(rt: &impl Env, i: usize) -> bool {
    !matches!(rt.arg(i, &mut []), Err(FillError::NotPresent))
}

// Argument `i` as a number. One that is longer than a number is none.
fn argument(rt: &impl Env, i: usize) -> Option<u32> {
    let mut word = [0u8; 11];
    let n = rt.arg(i, &mut word).ok()?;
    script_numbers::read_number(&word[..n])
}

// Arguments that are not two or three numbers.
fn refuse(rt: &HostRuntime, out: &mut [u8]) {
    let end = text_screen::put_refused(out, 0, Refusal::BadLine, b" not two or three numbers");
    console::write_out(rt, &rt.stderr(), &out[0..end]);
}

fn propose(rt: &HostRuntime, out: &mut [u8], n: Option<u32>, f: Option<u32>) {
    let (Some(n), Some(f)) = (n, f) else {
        refuse(rt, out);
        return;
    };
    say_thresholds(rt, out, n, f);
}

fn answer(rt: &HostRuntime, out: &mut [u8], n: Option<u32>, m: Option<u32>, f: Option<u32>) {
    let (Some(n), Some(m), Some(f)) = (n, m, f) else {
        refuse(rt, out);
        return;
    };
    say(rt, out, n, m, f);
    show(rt, out, n, m, f);
}

fn main(rt: HostRuntime) {
    let mut out = console::large_buffer();
    if !is_there(&rt, 2) || is_there(&rt, 4) {
        refuse(&rt, &mut out);
        return;
    }
    let n = argument(&rt, 1);
    if !is_there(&rt, 3) {
        let f = argument(&rt, 2);
        propose(&rt, &mut out, n, f);
        return;
    }
    let m = argument(&rt, 2);
    let f = argument(&rt, 3);
    answer(&rt, &mut out, n, m, f);
}
