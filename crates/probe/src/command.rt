// A command of 32 bytes, and its fields by the names of tests/PROBE.md.
ghost use Rattle.std.specs.Prelude.{◌<◌};

use declare::{Event, Reading};

#[derive(Clone, Copy)]
pub struct Command {
    // byte 0 is the letter, 1 to 7 are b1 to b7
    pub bytes: [u8; 32],
}

impl Command {
    pub fn letter(self) -> u8 {
        self.bytes[0]
    }

    // The four bytes from `at` on, 0 past the end.
    pub fn bits(self, at: usize) -> u32 {
        if 28 < at {
            return 0;
        }
        let bytes = self.bytes;
        u32::from_le_bytes([bytes[at], bytes[at + 1], bytes[at + 2], bytes[at + 3]])
    }

    // p
    pub fn low_half(self) -> u32 {
        self.bits(8)
    }

    // q
    pub fn high_half(self) -> u32 {
        self.bits(12)
    }

    // n
    pub fn number(self) -> u64 {
        u64::from(self.low_half()) + u64::from(self.high_half()) * 4294967296
    }

    // p as a place
    pub fn place(self) -> usize {
        self.low_half() as usize
    }

    // n as a count or a rule
    pub fn count(self) -> usize {
        self.number() as usize
    }

    // r1
    pub fn constant(self) -> i32 {
        self.bits(16).cast_signed()
    }

    // r1 to r4 for k = 0 to 3, blank if bit k of b2 is set
    fn reading(self, k: usize) -> Reading
        requires { k < 4 }
    {
        if self.bytes[2] >> k & 1 == 1 {
            None
        } else {
            Some(self.bits(16 + 4 * k).cast_signed())
        }
    }

    // The event of the commands E and e.
    pub fn event(self) -> Event {
        Event {
            time: self.high_half(),
            activity: self.bytes[1],
            reading1: self.reading(0),
            reading2: self.reading(1),
            reading3: self.reading(2),
            reading4: self.reading(3),
        }
    }
}
