// Words and numbers as text, one behind the other in a buffer. A byte past the buffer's end is counted and not written. The lines of a book end before
// place 4,000, so no place wraps.
// Kept: digits are put by hand. The library says what `write!` gives of a String alone, and that can fail for want of memory, while `put_book` and `view`
// are public and cannot fail.
ghost use Rattle.std.specs.Prelude.{◌≡◌, [], ◌∷◌, ◌+◌, ◌<◌, ◌≤◌, ◌%◌, length};
ghost use Rattle.book_drawing.specs.Texts.{Put};
ghost use Rattle.book_drawing.specs.Views.{decimal, hex_digit, hex};

use octets::parts::put_bytes;

// A buffer, and the place behind what was written.
#[derive(Drop)]
pub(crate) struct Text<'a> {
    pub(crate) out: &'a mut [u8],
    pub(crate) place: usize,
}

// The last decimal digit of a number.
fn digit(number: u16) -> u8
    ensures { result ≡ 48 + number % 10 }
{
    (48 + number % 10) as u8
}

// The last hex digit of a number.
fn hex_digit(number: u16) -> u8
    ensures { result ≡ hex_digit (number % 16) }
{
    let value = (number % 16) as u8;
    if value < 10 { 48 + value } else { 55 + value }
}

impl Text<'_> {
    pub(crate) fn put(&mut self, word: &[u8])
        requires { (self.old.place ≤ 4000) × (length word.now ≤ 8) }
        ensures { Put self.old word.now self.new }
    {
        put_bytes(self.out, self.place, word);
        self.place += word.len();
    }

    pub(crate) fn put_byte(&mut self, byte: u8)
        requires { self.old.place ≤ 4000 }
        ensures { Put self.old (byte ∷ []) self.new }
    {
        self.put(&[byte]);
    }

    pub(crate) fn put_decimal(&mut self, number: u16)
        requires { (self.old.place ≤ 4000) × (number < 1000) }
        ensures { Put self.old (decimal number) self.new }
    {
        if number < 10 {
            return self.put_byte(digit(number));
        }
        let tens = digit(number / 10);
        let ones = digit(number);
        if number < 100 {
            return self.put(&[tens, ones]);
        }
        self.put(&[digit(number / 100), tens, ones]);
    }

    pub(crate) fn put_hex(&mut self, number: u16)
        requires { self.old.place ≤ 4000 }
        ensures { Put self.old (hex number) self.new }
    {
        let first = hex_digit(number / 4096);
        let second = hex_digit(number / 256);
        let third = hex_digit(number / 16);
        self.put(&[first, second, third, hex_digit(number)]);
    }
}
