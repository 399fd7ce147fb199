// Which tasks are out, waiting or finished: words of 64 bits, a bit for each task.
// Promises: each function is the machine's own definition, for every task number: one of 64 and more is in no word and joins none.
// Builds on the definitions of machine.
#![tactic(auto)]

ghost use Rattle.std.specs.Prelude.{◌≡◌, get_or};
ghost use Rattle.machine.specs.Words.{has as has_of, joined, parted, lowest_in, count_in};
ghost use Rattle.bits.specs.Found.{found_of};

// One of several words; past the last stands 0.
pub fn word_at(words: &[u64], i: usize) -> u64
    ensures { result ≡ get_or words.now i 0 }
{
    if i < words.len() { words[i] } else { 0 }
}

pub fn has(word: u64, task: u32) -> bool
    ensures { result ≡ has_of word task }
{
    task < 64 && (word >> task) & 1 == 1
}

// The word with the task, and without it.
pub fn join(word: u64, task: u32) -> u64
    ensures { result ≡ joined word task }
{
    if task < 64 { word | 1 << task } else { word }
}

pub fn part(word: u64, task: u32) -> u64
    ensures { result ≡ parted word task }
{
    if task < 64 { word & !(1 << task) } else { word }
}

// The lowest-numbered task of a word, or none.
pub fn lowest(word: u64) -> Option<u32>
    ensures { result ≡ found_of (lowest_in word) }
{
    let zeros = word.trailing_zeros();
    if zeros < 64 { Some(zeros) } else { None }
}

// How many tasks are in a word.
pub fn count(word: u64) -> u32
    ensures { result ≡ count_in word }
{
    word.count_ones()
}
