// A script, in parts of any size.

ghost use Rattle.std.specs.Prelude.{◌≡◌};
ghost use Rattle.script.specs.Calls.{new_answer, new_words, FeedLeaves, FinishLeaves};
ghost use Rattle.capi_script.specs.Calls.{code_of, fed, ended, Leaves};

// A new script.
#[unsafe(no_mangle)]
pub extern "C" fn sigma_script_new(state: &mut [u32]) -> u32
    ensures { (result ≡ code_of (new_answer state.old)) × (state.new ≡ new_words state.old) }
{
    capi_script::sigma_script_new(state)
}

// The next part of the input.
#[unsafe(no_mangle)]
pub extern "C" fn sigma_script_feed(
    state: &mut [u32],
    input: &[u8],
    out: &mut [u8],
    counts: &mut [usize],
) -> u32
    ensures { (result ≡ code_of (fed state.old input.now out.old counts.old)) × Leaves (FeedLeaves state.old input.now out.old state.new out.new) (fed state.old input.now out.old counts.old) state.old out.old counts.old state.new out.new counts.new }
{
    capi_script::sigma_script_feed(state, input, out, counts)
}

// The end of the input.
#[unsafe(no_mangle)]
pub extern "C" fn sigma_script_finish(
    state: &mut [u32],
    out: &mut [u8],
    counts: &mut [usize],
) -> u32
    ensures { (result ≡ code_of (ended state.old out.old counts.old)) × Leaves (FinishLeaves state.old out.old state.new out.new) (ended state.old out.old counts.old) state.old out.old counts.old state.new out.new counts.new }
{
    capi_script::sigma_script_finish(state, out, counts)
}
