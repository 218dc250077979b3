ghost use Rattle.std.specs.Prelude.{◌≡◌, ◌≢◌, ℕ, true, false, ◌/◌, ◌^◌, ◌<◌, ◌≤◌, ◌==◌, ◌&&◌, ◌||◌, not, length, slice_index};
ghost use Rattle.std.specs.Int.{bit_at};
ghost use Rattle.paging_study.specs.Bits.{is_set};

/// Sets the bit of a number, 64 numbers to a word.
pub(crate) fn set_bit(words: &mut Vec<u64>, n: usize)
    requires { n / 64 < length words.old.items }
    ensures bits { (m : ℕ) → is_set words.new.items m ≡ (is_set words.old.items m || m == n) }
    ensures others { (g : ℕ) → g ≢ n / 64 → slice_index words.new.items g ≡ slice_index words.old.items g }
    ensures some { 0 < slice_index words.new.items (n / 64) }
    ensures len { length words.new.items ≡ length words.old.items }
{
    words[n / 64] = with_bit(words[n / 64], (n % 64) as u32);
}

/// Clears the bit of a number, if it is to leave. Says if that left its word without a bit.
pub(crate) fn clear_bit(words: &mut Vec<u64>, n: usize, leaves: bool) -> bool
    requires { n / 64 < length words.old.items }
    ensures bits { (m : ℕ) → is_set words.new.items m ≡ (is_set words.old.items m && not (leaves && m == n)) }
    ensures others { (g : ℕ) → g ≢ n / 64 → slice_index words.new.items g ≡ slice_index words.old.items g }
    ensures stays { leaves ≡ false → words.new.items ≡ words.old.items }
    ensures empty { result ≡ (leaves && slice_index words.new.items (n / 64) == 0) }
    ensures len { length words.new.items ≡ length words.old.items }
{
    if !leaves {
        return false;
    }
    let word = without_bit(words[n / 64], (n % 64) as u32);
    words[n / 64] = word;
    word == 0
}

/// Whether the bit of a number is set.
pub(crate) fn has_bit(words: &Vec<u64>, n: usize) -> bool
    requires { n / 64 < length words.now.items }
    ensures { result ≡ is_set words.now.items n }
{
    bit_of(words[n / 64], (n % 64) as u32)
}

/// The greatest number of a word whose bit is set.
pub(crate) fn last_bit(words: &Vec<u64>, word: usize) -> usize
    requires within { word < length words.now.items }
    requires few { length words.now.items ≤ 2 ^ 20 }
    requires some { 0 < slice_index words.now.items word }
    ensures there { is_set words.now.items result ≡ true }
    ensures word { result / 64 ≡ word }
    ensures last { (n : ℕ) → n / 64 ≡ word → is_set words.now.items n ≡ true → n ≤ result }
{
    word * 64 + highest(words[word]) as usize
}

fn with_bit(word: u64, bit: u32) -> u64
    requires { bit < 64 }
    ensures set { bit_at result bit ≡ 1 }
    ensures others { (i : ℕ) → i ≢ bit → bit_at result i ≡ bit_at word i }
{
    word | 1 << bit
}

fn without_bit(word: u64, bit: u32) -> u64
    requires { bit < 64 }
    ensures clear { bit_at result bit ≡ 0 }
    ensures others { (i : ℕ) → i < 64 → i ≢ bit → bit_at result i ≡ bit_at word i }
{
    word & !(1 << bit)
}

fn bit_of(word: u64, bit: u32) -> bool
    requires { bit < 64 }
    ensures { result ≡ (bit_at word bit == 1) }
{
    word >> bit & 1 == 1
}

/// The greatest bit that is set.
fn highest(word: u64) -> u32
    requires { 0 < word }
    ensures within { result < 64 }
    ensures set { bit_at word result ≡ 1 }
    ensures last { (i : ℕ) → i < 64 → bit_at word i ≡ 1 → i ≤ result }
{
    63 - word.leading_zeros()
}
