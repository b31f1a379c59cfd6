// A text of printable ASCII, whatever is written to it: a byte that can't be printed comes as \xNN.
// So no sentence has a line feed, and no byte of a file reaches a terminal that would obey it.

ghost use Rattle.std.specs.Prelude.{◌≡◌, ◌<◌, ◌≤◌, string_bytes};
ghost use Rattle.text_fault.specs.Ascii.{IsPrintable};

use std::alloc::{AllocError, Global};
use std::fmt;

// The digit of a number below 16.
fn hex_digit(n: u8) -> u8
    requires { n < 16 }
    ensures printable { (48 ≤ result) × (result ≤ 102) }
{
    if n < 10 { b'0' + n } else { b'a' + (n - 10) }
}

#[derive(Drop)]
pub struct Printable {
    pub text: String,
    ghost printable: { IsPrintable (string_bytes text) },
}

impl Printable {
    pub(crate) fn new(alloc: Global) -> Self {
        Printable {
            text: String::new(alloc),
        }
    }

    fn push(&mut self, c: u8) -> Result<(), AllocError>
        requires { (32 ≤ c) × (c ≤ 126) }
    {
        self.text.push(char::from(c))
    }

    // One byte, as it is or as \xNN.
    pub(crate) fn byte(&mut self, c: u8) -> Result<(), AllocError> {
        if c >= b' ' && c <= b'~' {
            return self.push(c);
        }
        self.push(b'\\')?;
        self.push(b'x')?;
        self.push(hex_digit(c / 16))?;
        self.push(hex_digit(c % 16))
    }

    // Some bytes, one after another.
    pub(crate) fn bytes(&mut self, bytes: &[u8]) -> Result<(), AllocError> {
        for c in bytes {
            self.byte(*c)?;
        }
        Ok(())
    }
}

impl fmt::Write for Printable {
    fn write_str(&mut self, s: &str) -> fmt::Result {
        self.bytes(s.as_bytes()).map_err(|_| fmt::Error)
    }
}
