// Names, and the names of guards' functions.
ghost use Rattle.std.specs.Prelude.{◌≡◌, ◌++◌, ◌<◌, ◌^◌};
ghost use Rattle.writing.specs.Wrote.{Wrote};
ghost use Rattle.writing.specs.Cells.{byte_of, letters_in, name_in, function_in};

use super::numbers::Out;
use tables::function;

impl Out<'_> {
    // The name in the row of 33 cells that begins at `row`.
    #[inline(always)]
    pub(crate) fn name(&mut self, names: &[u8], row: usize)
        requires { row < 2 ^ 40 }
        ensures { Wrote self.old (name_in names.now row) self.new }
    {
        let size = cells::at8(names, row);
        let (first, end) = (row + 1, row + 1 + size as usize);
        self.put(&[size]);
        if end <= names.len() {
            self.put_letters(&names[first..end]);
        } else {
            self.cut_name(names, first, size as usize);
        }
    }

    // Letters of a name that may pass the end of the cells.
    #[inline(always)]
    fn cut_name(&mut self, names: &[u8], first: usize, many: usize)
        requires { first < 2 ^ 41 × many < 256 }
        ensures { Wrote self.old (letters_in names.now first many) self.new }
    {
        for k in 0..many {
            self.put(&[cells::at8(names, first + k)]);
        }
    }

    // The length of a function's name, and the name.
    #[inline(always)]
    pub(crate) fn function(&mut self, number: u32)
        ensures { Wrote self.old (function_in number) self.new }
    {
        match number {
            function::IS_TRUE => self.put_letters(b"\x06isTrue"),
            function::IS_FALSE => self.put_letters(b"\x07isFalse"),
            function::LESS => self.put_letters(b"\x04less"),
            _ => self.put_letters(b"\x05equal"),
        }
    }

    // The version, and the module's name.
    pub fn head(&mut self, name_row: &[u8])
        ensures { Wrote self.old (byte_of 1 ++ name_in name_row.now 0) self.new }
    {
        self.byte(1);
        self.name(name_row, 0);
    }
}
