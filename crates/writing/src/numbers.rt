// Bytes and numbers, the highest byte first.
ghost use Rattle.std.specs.Prelude.{◌≡◌, ◌+◌, ◌≤◌, min, length, leb};
ghost use Rattle.writing.specs.Wrote.{Wrote};
ghost use Rattle.writing.specs.Cells.{byte_of, pair_of, quad_of};

// A buffer, and the place in it of the next byte. Behind the end nothing is put.
#[derive(Drop)]
pub struct Out<'a> {
    pub buffer: &'a mut [u8],
    pub at: usize,
}

impl Out<'_> {
    // Whether the buffer has room for so many bytes.
    #[inline(always)]
    pub(crate) fn has_room(&self, many: usize) -> bool
        ensures { result ≡ leb (self.now.at + many) (length self.now.buffer.now) }
    {
        many <= self.buffer.len() && self.at <= self.buffer.len() - many
    }

    // Some bytes that the buffer has room for.
    #[inline(always)]
    pub(crate) fn put_whole(&mut self, bytes: &[u8])
        requires { self.old.at + length bytes.now ≤ length self.old.buffer.now }
        ensures { Wrote self.old bytes.now self.new }
    {
        let end = self.at + bytes.len();
        self.buffer[self.at..end].copy_from_slice(bytes);
        self.at = end;
    }

    // Inlined, so that an array of bytes is copied by its length.
    #[inline(always)]
    pub(crate) fn put(&mut self, bytes: &[u8])
        ensures { Wrote self.old bytes.now self.new }
    {
        let Some(room) = self.buffer.len().checked_sub(self.at) else {
            return;
        };
        if bytes.len() <= room {
            self.put_whole(bytes);
        } else {
            self.put_whole(&bytes[..room]);
        }
    }

    // Some bytes that the buffer has room for, four at once.
    #[inline(always)]
    fn put_by_fours(&mut self, bytes: &[u8])
        requires { self.old.at + length bytes.now ≤ length self.old.buffer.now }
        ensures { Wrote self.old bytes.now self.new }
    {
        let fours = bytes.len() / 4;
        for k in 0..fours {
            self.put_whole(&bytes[k * 4..k * 4 + 4]);
        }
        let first = fours * 4;
        for j in 0..bytes.len() % 4 {
            self.put_whole(&bytes[first + j..first + j + 1]);
        }
    }

    // Bytes where the buffer may end within them.
    #[inline(always)]
    fn put_singly(&mut self, bytes: &[u8])
        ensures { Wrote self.old bytes.now self.new }
    {
        for k in 0..bytes.len() {
            self.put(&[bytes[k]]);
        }
    }

    // Bytes whose number the compiler does not know.
    #[inline(always)]
    pub(crate) fn put_letters(&mut self, letters: &[u8])
        ensures { Wrote self.old letters.now self.new }
    {
        if self.has_room(letters.len()) {
            self.put_by_fours(letters);
        } else {
            self.put_singly(letters);
        }
    }

    #[inline(always)]
    pub(crate) fn byte(&mut self, number: u32)
        ensures { Wrote self.old (byte_of number) self.new }
    {
        self.put(&[(number % 256) as u8]);
    }

    #[inline(always)]
    pub(crate) fn pair(&mut self, number: u32)
        ensures { Wrote self.old (pair_of number) self.new }
    {
        self.put(&[(number / 256 % 256) as u8, (number % 256) as u8]);
    }

    // Four bytes that the buffer has room for.
    #[inline(always)]
    pub(crate) fn whole_quad(&mut self, number: u32)
        requires { self.old.at + 4 ≤ length self.old.buffer.now }
        ensures { Wrote self.old (quad_of number) self.new }
    {
        self.put_whole(&number.to_be_bytes());
    }

    #[inline(always)]
    pub fn quad(&mut self, number: u32)
        ensures { Wrote self.old (quad_of number) self.new }
    {
        self.put(&number.to_be_bytes());
    }
}

// A number that is over its room: the room.
pub(crate) fn few(number: u32, room: usize) -> usize
    ensures { result ≡ min number room }
{
    room.min(number as usize)
}
