// What the desk writes, always on standard output: `say!` takes a format, as `print!` does. What standard output does not take is lost, and the session
// goes on: so nobody needs the result, or a runtime to print with, passed on through every function.
use std::fmt::{self, Display, Formatter, Write};

// The file descriptor of standard output.
const STANDARD_OUTPUT: i32 = 1;

#[derive(Clone, Copy)]
struct Output;

impl Write for Output {
    fn write_str(&mut self, text: &str) -> fmt::Result {
        io::write_all(STANDARD_OUTPUT, text.as_bytes());
        Ok(())
    }
}

#[macro_export]
macro_rules! say {
    ($($text:tt)*) => {
        $crate::saying::put(format_args!($($text)*))
    };
}

pub fn put(text: impl Display + Drop) {
    let mut output = Output;
    let _ = write!(output, "{text}");
}

// Bytes with a blank before each.
#[derive(Clone, Copy)]
pub struct Bytes<'a>(pub &'a [u8]);

impl Display for Bytes<'_> {
    fn fmt<W: Write>(&self, f: &mut Formatter<W>) -> fmt::Result {
        for byte in self.0 {
            write!(f, " {byte:02X}")?;
        }
        Ok(())
    }
}

// Text that was read, so that no terminal takes it for more than text.
#[derive(Clone, Copy)]
pub struct Plain<'a>(pub &'a [u8]);

impl Display for Plain<'_> {
    fn fmt<W: Write>(&self, f: &mut Formatter<W>) -> fmt::Result {
        for byte in self.0 {
            f.write_char(printable(*byte))?;
        }
        Ok(())
    }
}

fn printable(byte: u8) -> char {
    match byte {
        0x20..=0x7e => char::from(byte),
        _ => '?',
    }
}

// A number as it is typed.
#[derive(Clone, Copy, PartialEq, Eq)]
pub struct Hexadecimal(pub usize);

impl Display for Hexadecimal {
    fn fmt<W: Write>(&self, f: &mut Formatter<W>) -> fmt::Result {
        let number = self.0;
        write!(f, "{number:X}")
    }
}

// The same of a number that may be none.
#[derive(Clone, Copy, PartialEq, Eq)]
pub struct Perhaps(pub Option<usize>);

impl Display for Perhaps {
    fn fmt<W: Write>(&self, f: &mut Formatter<W>) -> fmt::Result {
        match self.0 {
            Some(number) => write!(f, "{number:X}"),
            None => write!(f, "none"),
        }
    }
}
