// The listing on its way out: gathered in an array, and written when a line is whole or the array is full.
ghost use Rattle.std.specs.Prelude.{◌<◌};

use std::io;
use std::io::Write;

// What waits to be written stands at the front of the array. The longest line, an update's, has some 160 bytes.
#[derive(Drop)]
pub(crate) struct Gathered<W> {
    output: W,
    waiting: [u8; 256],
    size: usize,
    ghost room: { size < 256 },
}

impl<W: Write> Gathered<W> {
    pub(crate) fn on(output: W) -> Gathered<W> {
        Gathered {
            output,
            waiting: [0; 256],
            size: 0,
        }
    }
}

impl<W: Write> Write for Gathered<W> {
    // As many of the bytes as there is room for: one at least.
    fn write(&mut self, bytes: &[u8]) -> io::Result<usize> {
        let from = self.size;
        let many = bytes.len().min(256 - from);
        let bytes = &bytes[..many];
        let to = from + many;
        self.waiting[from..to].copy_from_slice(bytes);
        if to < 256 && bytes.last() != Some(&b'\n') {
            self.size = to;
            return Ok(many);
        }
        self.size = 0;
        let waiting = self.waiting;
        self.output.write_all(&waiting[..to])?;
        Ok(many)
    }

    fn flush(&mut self) -> io::Result<()> {
        let to = self.size;
        self.size = 0;
        let waiting = self.waiting;
        self.output.write_all(&waiting[..to])?;
        self.output.flush()
    }
}
