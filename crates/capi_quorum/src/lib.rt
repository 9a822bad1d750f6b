// The C interface of the setting check: numbers in, 0 or a refusal's number out, and words for what else there is to say.

#![tactic(auto)]

ghost use Rattle.std.specs.Prelude.{◌≡◌, [], ◌∷◌};
ghost use Rattle.quorum.specs.Check.{verdict, Demand3};
ghost use Rattle.quorum.specs.Run.{run_event};
ghost use Rattle.quorum.specs.Threshold.{threshold_of};
ghost use Rattle.capi_quorum.specs.Calls.{signed_word, with_words, given, setting_code, setting_words, event_kind, event_code, event_words, threshold_code, threshold_words};

use ids::Refusal;
use quorum::Verdict;
use system::Event;

// A signed number in the bits of a word.
fn signed_word(x: i32) -> u32
    ensures { result ≡ signed_word x }
{
    if x < 0 {
        return 4294967295 - ((-1 - x) as u32);
    }
    x as u32
}

fn put_two(words: &mut [u32], a: u32, b: u32, code: u32) -> u32
    ensures { (result ≡ with_words 2 words.old code) × (words.new ≡ given words.old (a ∷ b ∷ [])) }
{
    if words.len() < 2 {
        return ids::code_of(Refusal::RoomShort);
    }
    words[0] = a;
    words[1] = b;
    code
}

// The check of a setting: 0, 7, 8 or 9; the margin as a signed number, and the events in the run, 0 unless 8.
pub fn sigma_setting(n: u32, m: u32, f: u32, words: &mut [u32]) -> u32
    ensures { (result ≡ setting_code (verdict n m f) words.old) × (words.new ≡ setting_words (verdict n m f) words.old) × Demand3 n m f (verdict n m f) }
{
    let v = quorum::check(n, m, f);
    match v {
        Verdict::Accepted(by) => put_two(words, signed_word(by), 0, 0),
        Verdict::Unsafe(by, events) => put_two(
            words,
            signed_word(by),
            events,
            ids::code_of(Refusal::Unsafe),
        ),
        Verdict::Stalls(by) => put_two(words, signed_word(by), 0, ids::code_of(Refusal::Stalls)),
        Verdict::OutOfRange => ids::code_of(Refusal::ParameterOutOfRange),
    }
}

// The number of an event's kind, for C.
fn kind_of(e: Event) -> u32
    ensures { result ≡ event_kind e }
{
    match e {
        Event::Try(_) => 1,
        Event::Exit(_) => 2,
        Event::Fall(_) => 3,
        Event::Down(_) => 4,
        Event::Up(_) => 5,
        Event::Take(_) => 6,
        Event::Drop(_) => 7,
        Event::Miss(_) => 8,
        Event::Check(_) => 9,
    }
}

// The event with number i of the run that shows an unsafe setting: its kind in the script's order and the number it names.
pub fn sigma_run_event(n: u32, m: u32, f: u32, i: u32, words: &mut [u32]) -> u32
    ensures { (result ≡ event_code (run_event n m f i) words.old) × (words.new ≡ event_words (run_event n m f i) words.old) }
{
    match quorum::run_event(n, m, f, i) {
        Ok(e) => put_two(words, kind_of(e), script_lines::number_of(e), 0),
        Err(x) => ids::code_of(x),
    }
}

// The threshold that is proposed for n servers.
pub fn sigma_default_threshold(n: u32, words: &mut [u32]) -> u32
    ensures { (result ≡ threshold_code (threshold_of n) words.old) × (words.new ≡ threshold_words (threshold_of n) words.old) }
{
    match quorum::default_threshold(n) {
        Some(x) => {
            if words.len() < 1 {
                return ids::code_of(Refusal::RoomShort);
            }
            words[0] = x;
            0
        }
        None => ids::code_of(Refusal::ParameterOutOfRange),
    }
}
