// What an item acts on, laid in the arrays of the mode.
ghost use Rattle.std.specs.Prelude.{◌≡◌, set, take};

// A number at a place of an array, where the array has it.
pub fn put(numbers: &mut [usize], at: usize, number: usize)
    ensures { numbers.new ≡ set numbers.old at number }
{
    if at < numbers.len() {
        numbers[at] = number;
    }
}

// The first n of some numbers, or all where they are fewer.
pub fn front(numbers: &[usize], n: usize) -> &[usize]
    ensures { result.now ≡ take n numbers.now }
{
    &numbers[..n.min(numbers.len())]
}
