// A sheet: a lent buffer that is filled from its start. A text that does not fit whole is left out, so that no call asks for room.
// Each call takes the place behind what was put and returns the next one.

#![tactic(auto)]

ghost use Rattle.std.specs.Prelude.{◌≡◌, [], ◌∷◌};
ghost use Rattle.script_numbers.specs.Decimals.{decimal};
ghost use Rattle.text_sheet.specs.Lines.{line_end};
ghost use Rattle.text_sheet.specs.Sheet.{sheet, puts};

// A text.
pub fn put(out: &mut [u8], at: usize, text: &[u8]) -> usize
    ensures { sheet out.new result ≡ puts (text.now ∷ []) (sheet out.old at) }
{
    if out.len() < at {
        return at;
    }
    if out.len() - at < text.len() {
        return at;
    }
    script_lines::put_bytes(out, at, text)
}

// A number in decimal.
pub fn put_number(out: &mut [u8], at: usize, x: u32) -> usize
    ensures { sheet out.new result ≡ puts (decimal x ∷ []) (sheet out.old at) }
{
    let mut digits = [0u8; script_numbers::DIGITS_32];
    let n = script_numbers::put_decimal(&mut digits, 0, x);
    put(out, at, &digits[0..n])
}

// A text, then a number.
pub fn put_with(out: &mut [u8], at: usize, text: &[u8], x: u32) -> usize
    ensures { sheet out.new result ≡ puts (text.now ∷ decimal x ∷ []) (sheet out.old at) }
{
    let p = put(out, at, text);
    put_number(out, p, x)
}

// The index of the first newline at or behind `from`, or the length.
pub fn line_end(s: &[u8], from: usize) -> usize
    ensures { result ≡ line_end s.now from }
{
    for i in from..s.len() {
        if s[i] == b'\n' {
            return i;
        }
    }
    s.len()
}
