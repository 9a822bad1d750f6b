// The C interface of a script: its state in words that the host lends, its input and output in parts of any size.
// The crate `sigma` exports these functions, and include/sigma.h declares them.

#![tactic(auto)]

ghost use Rattle.std.specs.Prelude.{◌≡◌, ◌≤◌, length};
ghost use Rattle.ids.specs.Refusals.{code};
ghost use Rattle.script.specs.State.{valid};
ghost use Rattle.script.specs.Calls.{new_answer, new_words, FeedLeaves, FinishLeaves};
ghost use Rattle.capi_script.specs.Calls.{code_of, counts_of, fed, ended, Leaves};
ghost use Rattle.capi_script.specs.Inner.{short_of};

use ids::Refusal;
use script::Progress;

fn number_of(p: Result<Progress, Refusal>) -> u32
    ensures { result ≡ code_of p }
{
    match p {
        Ok(_) => 0,
        Err(x) => ids::code_of(x),
    }
}

// The number of a call that has no room for its counts.
fn short_number(state: &[u32]) -> u32
    ensures { result ≡ code (short_of (valid state.now)) }
{
    if script::valid(state) {
        return ids::code_of(Refusal::RoomShort);
    }
    ids::code_of(Refusal::InvalidRecord)
}

// The bytes used and the bytes written.
fn put_counts(counts: &mut [usize], p: Result<Progress, Refusal>)
    requires { 2 ≤ length counts.old }
    ensures { counts.new ≡ counts_of counts.old p }
{
    if let Ok(made) = p {
        counts[0] = made.used;
        counts[1] = made.wrote;
    }
}

// A new script.
pub fn sigma_script_new(state: &mut [u32]) -> u32
    ensures { (result ≡ code_of (new_answer state.old)) × (state.new ≡ new_words state.old) }
{
    let p = script::new(state);
    number_of(p)
}

// The next part of the input.
pub fn sigma_script_feed(
    state: &mut [u32],
    input: &[u8],
    out: &mut [u8],
    counts: &mut [usize],
) -> u32
    ensures { (result ≡ code_of (fed state.old input.now out.old counts.old)) × Leaves (FeedLeaves state.old input.now out.old state.new out.new) (fed state.old input.now out.old counts.old) state.old out.old counts.old state.new out.new counts.new }
{
    if counts.len() < 2 {
        return short_number(state);
    }
    let p = script::feed(state, input, out);
    put_counts(counts, p);
    number_of(p)
}

// The end of the input.
pub fn sigma_script_finish(state: &mut [u32], out: &mut [u8], counts: &mut [usize]) -> u32
    ensures { (result ≡ code_of (ended state.old out.old counts.old)) × Leaves (FinishLeaves state.old out.old state.new out.new) (ended state.old out.old counts.old) state.old out.old counts.old state.new out.new counts.new }
{
    if counts.len() < 2 {
        return short_number(state);
    }
    let p = script::finish(state, out);
    put_counts(counts, p);
    number_of(p)
}
