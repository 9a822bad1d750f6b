// The check of a setting.

ghost use Rattle.std.specs.Prelude.{◌≡◌};
ghost use Rattle.quorum.specs.Check.{verdict, Demand3};
ghost use Rattle.quorum.specs.Run.{run_event};
ghost use Rattle.quorum.specs.Threshold.{threshold_of};
ghost use Rattle.capi_quorum.specs.Calls.{setting_code, setting_words, event_code, event_words, threshold_code, threshold_words};

// The check of a setting: 0, 7, 8 or 9; the margin as a signed number, and the events in the run, 0 unless 8.
#[unsafe(no_mangle)]
pub extern "C" fn sigma_setting(n: u32, m: u32, f: u32, words: &mut [u32]) -> u32
    ensures { (result ≡ setting_code (verdict n m f) words.old) × (words.new ≡ setting_words (verdict n m f) words.old) × Demand3 n m f (verdict n m f) }
{
    capi_quorum::sigma_setting(n, m, f, words)
}

// The event with number i of the run that shows an unsafe setting: its kind in the script's order and the number it names.
#[unsafe(no_mangle)]
pub extern "C" fn sigma_run_event(n: u32, m: u32, f: u32, i: u32, words: &mut [u32]) -> u32
    ensures { (result ≡ event_code (run_event n m f i) words.old) × (words.new ≡ event_words (run_event n m f i) words.old) }
{
    capi_quorum::sigma_run_event(n, m, f, i, words)
}

// The threshold that is proposed for n servers.
#[unsafe(no_mangle)]
pub extern "C" fn sigma_default_threshold(n: u32, words: &mut [u32]) -> u32
    ensures { (result ≡ threshold_code (threshold_of n) words.old) × (words.new ≡ threshold_words (threshold_of n) words.old) }
{
    capi_quorum::sigma_default_threshold(n, words)
}
