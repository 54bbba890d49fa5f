// Numbers and their digits, cited by every crate that reads or writes bytes: definitions and laws, and the one reading and the one writing of
// four bytes, the least significant first.
#![tactic(auto)]

ghost use Rattle.std.specs.Prelude.{◌≡◌, [], ◌∷◌};
ghost use Rattle.digits.specs.Digits.{number};
ghost use Rattle.digits.specs.Words.{put_word_of};

// The number of four bytes, the least significant first.
pub fn word_of(a: u8, b: u8, c: u8, d: u8) -> u32
    ensures { result ≡ number 256 (a ∷ b ∷ c ∷ d ∷ []) }
{
    (a as u32) + 256 * ((b as u32) + 256 * ((c as u32) + 256 * (d as u32)))
}

// Writes the lowest four bytes of a number at `at`, the least significant first; where there is no room for four, nothing.
pub fn put_word(out: &mut [u8], at: usize, n: u64)
    ensures { out.new ≡ put_word_of out.old at n }
{
    if out.len() < 4 {
        return;
    }
    if out.len() - 4 < at {
        return;
    }
    out[at] = (n % 256) as u8;
    out[at + 1] = (n / 256 % 256) as u8;
    out[at + 2] = (n / 256 / 256 % 256) as u8;
    out[at + 3] = (n / 256 / 256 / 256 % 256) as u8;
}
