//! The bits of a word.
ghost use Rattle.std.specs.Prelude.{◌≡◌, ◌↔◌, ◌*◌, ◌/◌, ◌%◌, ◌^◌, ◌<◌, IsTrue, bit_and, bit_or};

/// Sets bit `k`, and returns whether it was clear before.
#[inline(always)]
pub(crate) fn set_bit(word: &mut u64, k: usize) -> bool
    requires { k < 64 }
    ensures fresh { IsTrue result ↔ (bit_and (word.old / 2 ^ k) 1 ≡ 0) }
    ensures set { word.new ≡ bit_or word.old (1 * 2 ^ k % 2 ^ 64) }
{
    let fresh = (*word >> k) & 1 == 0;
    *word |= 1 << k;
    fresh
}
