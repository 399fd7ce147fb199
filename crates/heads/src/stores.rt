// Values put into cells from a place on.
ghost use Rattle.std.specs.Prelude.{◌≡◌};
ghost use Rattle.std.proofs.lemmas.List.Edits.{sets};

// What would stand past the end of the cells is lost. The values are few: one by one they cost less than a call of the library.
pub fn store<T: Copy>(cells: &mut [T], place: usize, values: &[T])
    ensures { cells.new ≡ sets cells.old place values.now }
{
    if place < cells.len() {
        let n = values.len().min(cells.len() - place);
        for k in 0..n {
            cells[place + k] = values[k];
        }
    }
}
