// Bytes put into a buffer, one behind the other. What has no room is left out.
ghost use Rattle.std.specs.Prelude.{[], ◌∷◌};
ghost use Rattle.buffer.specs.Puts.{Put};

// A lent buffer, and the place where the next byte is put.
#[derive(Drop)]
pub struct Output<'a> {
    pub bytes: &'a mut [u8],
    pub at: usize,
}

impl Output<'_> {
    pub fn put_byte(&mut self, byte: u8)
        ensures { Put (byte ∷ []) self.old self.new }
    {
        if self.at < self.bytes.len() {
            self.bytes[self.at] = byte;
            self.at += 1;
        }
    }

    pub fn put_bytes(&mut self, bytes: &[u8])
        ensures { Put bytes.now self.old self.new }
    {
        if self.at < self.bytes.len() {
            let n = bytes.len().min(self.bytes.len() - self.at);
            self.bytes[self.at..self.at + n].copy_from_slice(&bytes[..n]);
            self.at += n;
        }
    }
}
