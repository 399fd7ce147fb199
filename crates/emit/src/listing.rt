// The table of the code while it is filled.
ghost use Rattle.std.specs.Prelude.{◌≡◌, ◌+◌, ◌<◌, slice_set};
ghost use Rattle.emit.specs.Rows.{place_in};
ghost use Rattle.emit.specs.Emitted.{listed, Stored, count_room};

pub(crate) const UNUSED: usize = 4294967295;

// Its cells, and the place of the next instruction, also beyond their end.
#[derive(Drop)]
pub(crate) struct Listing<'a> {
    pub cells: &'a mut [u32],
    pub pc: usize,
}

// A row of three cells, under one test of their end.
#[inline(always)]
fn put_row(cells: &mut [u32], at: usize, opcode: u32, first: u32, second: u32)
    requires { at < 65536 }
    ensures { cells.new ≡ slice_set (slice_set (slice_set cells.old at opcode) (at + 1) first) (at + 2) second }
{
    if at + 2 < cells.len() {
        cells[at] = opcode;
        cells[at + 1] = first;
        cells[at + 2] = second;
    } else {
        cells::put32(cells, at, opcode);
        cells::put32(cells, at + 1, first);
        cells::put32(cells, at + 2, second);
    }
}

impl Listing<'_> {
    // A row more; one beyond the table is only counted.
    #[inline(always)]
    pub(crate) fn put(&mut self, opcode: u32, first: usize, second: usize)
        requires { (self.old.pc < count_room) × (self.old.pc < 4096 → (first < 4294967296) × (second < 4294967296)) }
        ensures code { Stored (listed self.old) (listed self.new) opcode first second }
        ensures same { self.new.cells.ghost_name ≡ self.old.cells.ghost_name }
    {
        if self.pc < 4096 {
            put_row(self.cells, self.pc * 3, opcode, first as u32, second as u32);
        }
        self.pc += 1;
    }

    // The place of the next instruction in the table; beyond it, its end.
    pub(crate) fn place(&self) -> u32
        ensures { result ≡ place_in self.now.pc }
    {
        self.pc.min(4096) as u32
    }
}
