// What the commissioning screen says of a setting, and the run of an unsafe one as a gallery script, as texts on a sheet
// (specs/Screen). For `commission`.

#![tactic(auto)]

ghost use Rattle.std.specs.Prelude.{◌≡◌, [], ◌∷◌};
ghost use Rattle.std.proofs.Math.IntN.{sub_ℕ};
ghost use Rattle.script_numbers.specs.Decimals.{decimal};
ghost use Rattle.script_lines.specs.Printed.{event_line};
ghost use Rattle.quorum.specs.Run.{run_event};
ghost use Rattle.script_lines.specs.Words.{newline, text};
ghost use Rattle.text_sheet.specs.Sheet.{sheet as sheet_of, puts, ends};
ghost use Rattle.text_screen.specs.Screen.{signed, margin_text, refused_text, verdict_text, events_text, limit_text, fits_text, threshold_text, report, thresholds_text, proposal, opening_text, asked_text, script_text};

use ids::Refusal;
use quorum::{Proposal, Verdict};
use system::{Event, Setting};

// The margin of a setting in range.
fn put_margin(out: &mut [u8], at: usize, n: u32, m: u32, f: u32) -> usize
    ensures { sheet_of out.new result ≡ puts (margin_text n m f) (sheet_of out.old at) }
{
    if !quorum::in_range(n, m, f) {
        return at;
    }
    let p = put_difference(out, at, 2 * m, n + f);
    text_sheet::put(out, p, b"\n")
}

// `margin`, and a minus b with its sign.
fn put_difference(out: &mut [u8], at: usize, a: u32, b: u32) -> usize
    ensures { sheet_of out.new result ≡ puts (text "margin " ∷ signed (sub_ℕ a b)) (sheet_of out.old at) }
{
    let p = text_sheet::put(out, at, b"margin ");
    if a < b {
        return text_sheet::put_with(out, p, b"-", b - a);
    }
    text_sheet::put_number(out, p, a - b)
}

pub fn put_refused(out: &mut [u8], at: usize, e: Refusal, why: &[u8]) -> usize
    ensures { sheet_of out.new result ≡ puts (refused_text e why.now) (sheet_of out.old at) }
{
    let p = text_sheet::put_with(out, at, b"no ", ids::code_of(e));
    let q = text_sheet::put(out, p, why);
    text_sheet::put(out, q, b"\n")
}

fn put_verdict(out: &mut [u8], at: usize, v: Verdict) -> usize
    ensures { sheet_of out.new result ≡ puts (verdict_text v) (sheet_of out.old at) }
{
    match v {
        Verdict::Accepted(_) => text_sheet::put(out, at, b"ok\n"),
        Verdict::Unsafe(_, _) => put_refused(out, at, Refusal::Unsafe, b" unsafe"),
        Verdict::Stalls(_) => put_refused(out, at, Refusal::Stalls, b" stalls"),
        Verdict::OutOfRange => put_refused(out, at, Refusal::ParameterOutOfRange, b" out of range"),
    }
}

// A line of a text and a number.
fn put_count(out: &mut [u8], at: usize, text: &[u8], x: u32) -> usize
    ensures { sheet_of out.new result ≡ puts (text.now ∷ decimal x ∷ ends) (sheet_of out.old at) }
{
    let p = text_sheet::put_with(out, at, text, x);
    text_sheet::put(out, p, b"\n")
}

// The events in the run of an unsafe setting.
fn put_events(out: &mut [u8], at: usize, v: Verdict) -> usize
    ensures { sheet_of out.new result ≡ puts (events_text v) (sheet_of out.old at) }
{
    match v {
        Verdict::Unsafe(_, events) => put_count(out, at, b"events ", events),
        Verdict::Accepted(_) | Verdict::Stalls(_) | Verdict::OutOfRange => at,
    }
}

// A run of more servers than a simulation has fits none.
fn put_limit(out: &mut [u8], at: usize, n: u32) -> usize
    ensures { sheet_of out.new result ≡ puts (limit_text n) (sheet_of out.old at) }
{
    if n <= system::MAX_SERVERS {
        return at;
    }
    let p = text_sheet::put_with(out, at, b"fits no gallery: at most ", system::MAX_SERVERS);
    let q = text_sheet::put(out, p, b" keepers");
    text_sheet::put(out, q, b"\n")
}

fn put_fits(out: &mut [u8], at: usize, n: u32, v: Verdict) -> usize
    ensures { sheet_of out.new result ≡ puts (fits_text n v) (sheet_of out.old at) }
{
    match v {
        Verdict::Unsafe(_, _) => put_limit(out, at, n),
        Verdict::Accepted(_) | Verdict::Stalls(_) | Verdict::OutOfRange => at,
    }
}

// Two numbers in one line, each behind a text.
fn put_counts(out: &mut [u8], at: usize, first: &[u8], x: u32, second: &[u8], y: u32) -> usize
    ensures { sheet_of out.new result ≡ puts (first.now ∷ decimal x ∷ second.now ∷ decimal y ∷ ends) (sheet_of out.old at) }
{
    let p = text_sheet::put_with(out, at, first, x);
    put_count(out, p, second, y)
}

// The default threshold of n servers.
fn put_threshold(out: &mut [u8], at: usize, n: u32, t: Option<u32>) -> usize
    ensures { sheet_of out.new result ≡ puts (threshold_text n t) (sheet_of out.old at) }
{
    match t {
        Some(m) => put_counts(
            out,
            at,
            b"usual threshold ",
            m,
            b" for f up to ",
            quorum::most_faults(n),
        ),
        None => at,
    }
}

// All that is said of a setting.
pub fn put_report(out: &mut [u8], n: u32, m: u32, f: u32) -> usize
    ensures { sheet_of out.new result ≡ puts (report n m f) (sheet_of out.old 0) }
{
    let v = quorum::check(n, m, f);
    let p = put_verdict(out, 0, v);
    let q = put_margin(out, p, n, m, f);
    let t = put_events(out, q, v);
    let u = put_fits(out, t, n, v);
    put_threshold(out, u, n, quorum::default_threshold(n))
}

fn put_thresholds(out: &mut [u8], at: usize, p: Proposal) -> usize
    ensures { sheet_of out.new result ≡ puts (thresholds_text p) (sheet_of out.old at) }
{
    match p {
        Proposal::Thresholds(a, b) => put_counts(out, at, b"thresholds ", a, b" to ", b),
        Proposal::NoThreshold => text_sheet::put(out, at, b"thresholds none\n"),
        Proposal::OutOfRange => put_refused(
            out,
            at,
            Refusal::ParameterOutOfRange,
            b" out of range",
        ),
    }
}

// All that is said of so many servers and faults.
pub fn put_proposal(out: &mut [u8], n: u32, f: u32) -> usize
    ensures { sheet_of out.new result ≡ puts (proposal n f) (sheet_of out.old 0) }
{
    let p = put_thresholds(out, 0, quorum::propose(n, f));
    put_threshold(out, p, n, quorum::default_threshold(n))
}

fn put_event(out: &mut [u8], at: usize, e: Event) -> usize
    ensures { sheet_of out.new result ≡ puts (event_line e ∷ (newline ∷ []) ∷ []) (sheet_of out.old at) }
{
    // That its number has 32 bits says that the line has room.
    script_lines::number_of(e);
    let mut line = [0u8; 16];
    let n = script_lines::put_event(&mut line, 0, e);
    let p = text_sheet::put(out, at, &line[0..n]);
    text_sheet::put(out, p, b"\n")
}

fn put_opening(out: &mut [u8], n: u32, m: u32, f: u32) -> usize
    ensures { sheet_of out.new result ≡ puts (opening_text n m f) (sheet_of out.old 0) }
{
    let mut line = [0u8; 51];
    let s = Setting {
        n,
        m,
        f,
        clients: 2,
    };
    let k = script_lines::put_setting(&mut line, 0, s);
    let p = text_sheet::put(out, 0, &line[0..k]);
    text_sheet::put(out, p, b"\n")
}

// Event number `i` of the run.
fn put_numbered(out: &mut [u8], at: usize, n: u32, m: u32, f: u32, i: u32) -> usize
    ensures { sheet_of out.new result ≡ puts (asked_text (run_event n m f i)) (sheet_of out.old at) }
{
    match quorum::run_event(n, m, f, i) {
        Ok(e) => put_event(out, at, e),
        Err(_) => at,
    }
}

// The first `events` events of the run, as a script.
pub fn put_script(out: &mut [u8], n: u32, m: u32, f: u32, events: u32) -> usize
    ensures { sheet_of out.new result ≡ puts (script_text n m f events) (sheet_of out.old 0) }
{
    let mut at = put_opening(out, n, m, f);
    for i in 1..=events {
        at = put_numbered(out, at, n, m, f, i);
    }
    at
}
