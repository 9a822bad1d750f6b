// Decimal numbers of 32 bits, read and printed.

#![tactic(auto)]

ghost use Rattle.std.specs.Prelude.{◌≡◌, ◌+◌, ◌≤◌, ◌<◌, length};
ghost use Rattle.std.proofs.lemmas.List.Edits.{sets};
ghost use Rattle.script_numbers.specs.Decimals.{largest32, digit_up_to, digits_up_to, number, decimal};
ghost use Rattle.script_numbers.specs.Answers.{reading_says, number_says};

// The largest number, and the most digits that a number has.
const LARGEST_32: u64 = 4_294_967_295;

pub const DIGITS_32: usize = 10;

// One more digit behind x.
fn add_digit(x: u32, b: u8) -> Option<u32>
    ensures { result ≡ digit_up_to largest32 x b }
{
    if b < b'0' {
        return None;
    }
    if b > b'9' {
        return None;
    }
    let y = 10 * (x as u64) + ((b - b'0') as u64);
    if y > LARGEST_32 {
        return None;
    }
    Some(y as u32)
}

// The bytes as digits, the first of which may be 0.
fn read_digits(s: &[u8]) -> Option<u32>
    ensures { result ≡ digits_up_to largest32 0 s.now }
{
    let mut x = 0;
    for b in s {
        x = add_digit(x, *b)?;
    }
    Some(x)
}

// The bytes as a number: one or more digits without a leading zero, up to 4,294,967,295.
pub fn read_number(s: &[u8]) -> Option<u32>
    ensures value { result ≡ number s.now }
    ensures numbers { reading_says result ≡ number_says (number s.now) }
{
    if s.len() == 0 {
        return None;
    }
    if s.len() == 1 {
        return read_digits(s);
    }
    if s[0] == b'0' {
        return None;
    }
    read_digits(s)
}

// The byte of a digit.
fn digit_byte(d: u32) -> u8
    requires { d < 10 }
    ensures { result ≡ 48 + d }
{
    b'0' + d as u8
}

// A number.
pub fn put_decimal(out: &mut [u8], at: usize, x: u32) -> usize
    requires { at + length (decimal x) ≤ length out.old }
    ensures { (result ≡ at + length (decimal x)) × (out.new ≡ sets out.old at (decimal x)) }
{
    if x < 10 {
        out[at] = digit_byte(x);
        return at + 1;
    }
    let p = put_decimal(out, at, x / 10);
    out[p] = digit_byte(x % 10);
    p + 1
}
