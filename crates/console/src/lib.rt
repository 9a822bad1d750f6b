// Standard input, output and error, for the programs. Where the system fails, standard error says so. No contract can speak of what the
// system reads or writes: these say only that what was read lies within what was lent.

#![tactic(auto)]

ghost use Rattle.std.specs.Prelude.{◌≡◌, length};
ghost use Rattle.console.specs.Fits.{Fits, Some};

use std::io::{Read, Write};
use std::{io, str};

// What reading gave: the system failed; the input has ended; so many bytes at the start of what was lent. Which of them is the
// system's to say. No Result: the failure was told on standard error, and there is no error left to hand on.
#[derive(Clone, Copy)]
pub enum Input {
    Failed,
    End,
    Bytes(usize),
}

// 65,536 zeros, for a part of the input or for what is to be written.
pub fn large_buffer() -> [u8; 65536]
    ensures { 65536 ≡ length result }
{
    [0; 65536]
}

// The system's words of an error, of the text that it prints: without its number, which stands behind them.
fn words(said: &[u8]) -> &str {
    let Ok(said) = str::from_utf8(said) else {
        return "";
    };
    match said.split_once(" (os error ") {
        Some((words, _)) => words,
        None => said,
    }
}

// Standard error says what failed, and why.
fn fail(rt: &impl Eprint, what: &str, error: io::Error) {
    let mut said = [0u8; 256];
    let mut rest = &mut said[..];
    let _ = write!(rest, "{error}");
    let unused = rest.len();
    let words = words(&said[..said.len().saturating_sub(unused)]);
    let _ = eprintln!(rt; "{what}: {words}");
}

// Whether all of it was written.
pub fn write_out(rt: &impl Eprint, to: &impl Print, bytes: &[u8]) -> bool {
    match to.write_all(bytes) {
        Ok(()) => true,
        Err(error) => {
            fail(rt, "write", error);
            false
        }
    }
}

// What comes next.
pub fn read_some(rt: &(impl io::Input + Eprint), part: &mut [u8]) -> Input
    ensures { Fits (length part.new) result × Some result }
{
    match rt.reader().read(part) {
        Err(error) => {
            fail(rt, "read", error);
            Input::Failed
        }
        Ok(0) => Input::End,
        Ok(n) => Input::Bytes(n),
    }
}
