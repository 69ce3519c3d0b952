// Reading decimal numbers.
ghost use Rattle.std.specs.Prelude.{◌≡◌, ℕ, ◌^◌, ◌<◌, Some, decimal};
ghost use Rattle.script.specs.Grammar.{numbered};

// By hand, since the `parse` of the library takes a text, a sign and numbers of 20 digits.
/// The number that 1 to 19 digits write; nothing for any other text.
pub(crate) fn number(text: &[u8]) -> Option<u64>
    ensures reads { result ≡ numbered text.now }
    ensures back { (n : ℕ) → n < 10 ^ 19 → text.now ≡ decimal n → result ≡ Some n }
{
    if text.is_empty() || text.len() > 19 {
        return None;
    }
    let mut n: u64 = 0;
    for b in text {
        if !b.is_ascii_digit() {
            return None;
        }
        n = 10 * n + u64::from(*b - b'0');
    }
    Some(n)
}
