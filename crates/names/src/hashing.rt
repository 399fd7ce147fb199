// The key of a name, from its letters, and its chain, from its key and its scope.
ghost use Rattle.std.specs.Prelude.{◌≡◌, ◌+◌, ◌-◌, ◌*◌, ◌/◌, ◌<◌, ◌≤◌, length, slice_index};
ghost use Rattle.names.specs.Index.{quad, pair, key_of, mixed};

// Four letters from a place on, as one number.
fn four(word: &[u8], i: usize) -> usize
    requires { i + 4 ≤ length word.now }
    ensures { (result ≡ quad word.now i) × (result < 4294967296) }
{
    word[i] as usize
        + word[i + 1] as usize * 256
        + word[i + 2] as usize * 65536
        + word[i + 3] as usize * 16777216
}

// The first, the middle and the last letter, as one number.
fn three(word: &[u8]) -> usize
    requires { 0 < length word.now }
    ensures { result ≡ slice_index word.now 0 + slice_index word.now (length word.now / 2) * 256 + slice_index word.now (length word.now - 1) * 65536 }
{
    let n = word.len();
    word[0] as usize + word[n / 2] as usize * 256 + word[n - 1] as usize * 65536
}

// Eight letters, four from each of two places on, as one number.
fn eight(word: &[u8], i: usize, j: usize) -> usize
    requires { (i + 4 ≤ length word.now) × (j + 4 ≤ length word.now) }
    ensures { result ≡ pair word.now i j }
{
    four(word, i) + four(word, j) * 4294967296
}

// The key of a name.
pub(crate) fn key_of(word: &[u8]) -> usize
    ensures { result ≡ key_of word.now }
{
    let n = word.len();
    if n == 0 {
        return 0;
    }
    if n < 4 {
        return three(word);
    }
    let ends = eight(word, 0, n - 4);
    if n <= 8 {
        return ends;
    }
    let middle = (n - 8) / 2;
    ends / 2 + eight(word, middle, middle + 4) / 2
}

// The chain in a scope of the names with a key.
pub(crate) fn chain_of(scope: usize, key: usize) -> usize
    ensures { (result ≡ mixed scope key) × (result < 512) }
{
    let all = (key / 4294967296).wrapping_add(key).wrapping_add(scope);
    all % 4294967296 * 2654435769 / 8388608 % 512
}
