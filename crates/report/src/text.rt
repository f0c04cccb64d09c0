// A lent text, written from its start: bytes and numbers, each behind what was written before it.
ghost use Rattle.std.specs.Prelude.{◌≡◌, ◌++◌, ◌+◌, ◌%◌, ◌<◌, length};
ghost use Rattle.answers.specs.Numbers.{number_of};
ghost use Rattle.report.specs.Text.{ascii, line, digit, hex, decimal};
ghost use Rattle.report.specs.Inner.{Added, Fits};

use answers::Refusal;

// The place is where the next byte goes.
#[derive(Drop)]
pub(crate) struct Text<'a> {
    pub(crate) bytes: &'a mut [u8],
    pub(crate) place: usize,
}

impl Text<'_> {
    pub(crate) fn append(&mut self, bytes: &[u8])
        requires { Fits (length bytes.now) self.old }
        ensures same_reference { self.new.bytes.ghost_name ≡ self.old.bytes.ghost_name }
        ensures written { Added bytes.now self.old self.new }
    {
        words::put(self.bytes, self.place, bytes);
        self.place += bytes.len();
    }

    // A number below 1,000, with no zeros in front.
    fn decimal(&mut self, number: usize)
        requires { Fits 3 self.old }
        ensures same_reference { self.new.bytes.ghost_name ≡ self.old.bytes.ghost_name }
        ensures written { Added (decimal number) self.old self.new }
    {
        let ones = decimal_digit(number);
        let tens = decimal_digit(number / 10);
        if number < 10 {
            self.append(&[ones]);
        } else if number < 100 {
            self.append(&[tens, ones]);
        } else {
            self.append(&[decimal_digit(number / 100), tens, ones]);
        }
    }

    // What follows a name: a number, and how the line ends.
    pub(crate) fn numbered(&mut self, number: usize, end: &[u8])
        requires { Fits (4 + length end.now) self.old }
        ensures same_reference { self.new.bytes.ghost_name ≡ self.old.bytes.ghost_name }
        ensures written { Added (ascii " " ++ decimal number ++ end.now) self.old self.new }
    {
        self.append(b" ");
        self.decimal(number);
        self.append(end);
    }

    // What follows the name of an input that is refused.
    pub(crate) fn refused(&mut self, refusal: Refusal)
        requires { Fits 13 self.old }
        ensures same_reference { self.new.bytes.ghost_name ≡ self.old.bytes.ghost_name }
        ensures written { Added (ascii " " ++ decimal (number_of refusal) ++ line (ascii " refused")) self.old self.new }
    {
        self.numbered(refusal.number() as usize, b" refused\n");
    }

    // What follows the name of a list that is refused: the number, and the place of the fault.
    pub(crate) fn refused_at(&mut self, refusal: Refusal, fault: usize)
        requires { Fits 17 self.old }
        ensures same_reference { self.new.bytes.ghost_name ≡ self.old.bytes.ghost_name }
        ensures written { Added (ascii " " ++ decimal (number_of refusal) ++ (ascii " " ++ hex 3 fault ++ line (ascii " refused"))) self.old self.new }
    {
        self.numbered(refusal.number() as usize, b" ");
        self.append(&[
            hex_digit(fault >> 8),
            hex_digit(fault >> 4),
            hex_digit(fault),
        ]);
        self.append(b" refused\n");
    }
}

#[tactic(auto, unfolding(crate::specs::Text::digit))]
fn digit(value: usize) -> u8
    requires { value < 16 }
    ensures { result ≡ digit value }
{
    b"0123456789ABCDEF"[value]
}

// The last hexadecimal digit of a number.
pub(crate) fn hex_digit(number: usize) -> u8
    ensures { result ≡ digit (number % 16) }
{
    digit(number & 15)
}

// The last decimal digit of a number.
fn decimal_digit(number: usize) -> u8
    ensures { result ≡ digit (number % 10) }
{
    digit(number % 10)
}
