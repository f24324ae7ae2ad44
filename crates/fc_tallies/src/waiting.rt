//! The grains at which live slots further back in a chain still look for a holder, in words of 64 bits.

ghost use Rattle.std.specs.Prelude.{◌≡◌, ℕ, ◌*◌, ◌^◌, ◌<◌, ◌≤◌, not, ◌&&◌, false, length};
ghost use Rattle.fc_bits.specs.Words.{bit_of};
ghost use Rattle.fc_base.specs.Counts.{count_below};

/// Nobody waits for a grain of the first words.
pub(crate) fn clear_waiting(waiting: &mut [u64], words: usize)
    requires { words ≤ length waiting.old }
    ensures { (g : ℕ) → g < 64 * words → bit_of waiting.new g ≡ false }
{
    for index in 0..words {
        waiting[index] = 0;
    }
}

/// The grains that are held find their holder. How many of them were waited for.
pub(crate) fn take_held(waiting: &mut [u64], held: &[u64]) -> u32
    requires room { length held.now ≤ length waiting.old }
    requires few { count_below (λ g. bit_of waiting.old g && bit_of held.now g) (64 * length held.now) < 2 ^ 32 }
    ensures count { result ≡ count_below (λ g. bit_of waiting.old g && bit_of held.now g) (64 * length held.now) }
    ensures left { (g : ℕ) → g < 64 * length held.now → bit_of waiting.new g ≡ (bit_of waiting.old g && not (bit_of held.now g)) }
{
    let mut count = 0;
    for index in 0..held.len() {
        count += (waiting[index] & held[index]).count_ones();
        waiting[index] &= !held[index];
    }
    count
}

/// All grains but those that are held are waited for.
pub(crate) fn wait_for_others(waiting: &mut [u64], held: &[u64])
    requires { length held.now ≤ length waiting.old }
    ensures { (g : ℕ) → g < 64 * length held.now → bit_of waiting.new g ≡ not (bit_of held.now g) }
{
    for index in 0..held.len() {
        waiting[index] = !held[index];
    }
}
