// Numbers put into a buffer, in base ten.
ghost use Rattle.std.specs.Prelude.{[], ◌∷◌, ◌++◌};
ghost use Rattle.number.specs.Written.{digits_of, integer_text};
ghost use Rattle.buffer.specs.Puts.{Put};

use crate::put::Output;

impl Output<'_> {
    // The digits, the highest first; they are found from the last on, and put at once. A call for
    // each digit was tried: long numbers then took 1.8 times the instructions of plain Rust.
    pub fn put_number(&mut self, n: u32)
        ensures { Put (digits_of n) self.old self.new }
    {
        if n < 10 {
            self.put_byte(b'0' + n as u8);
            return;
        }
        let mut digits = [0u8; 10];
        let mut left = n;
        let mut first: usize = 9;
        while 10 <= left {
            digits[first] = b'0' + (left % 10) as u8;
            left /= 10;
            first -= 1;
        }
        digits[first] = b'0' + left as u8;
        self.put_bytes(&digits[first..]);
    }

    // A `-` before the digits of a negative number.
    pub fn put_integer(&mut self, z: i32)
        ensures { Put (integer_text z) self.old self.new }
    {
        if z < 0 {
            self.put_byte(b'-');
        }
        self.put_number(z.unsigned_abs());
    }

    // A number and the byte that ends its field.
    pub fn put_number_field(&mut self, n: u32, end: u8)
        ensures { Put (digits_of n ++ (end ∷ [])) self.old self.new }
    {
        self.put_number(n);
        self.put_byte(end);
    }
}
