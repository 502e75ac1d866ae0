// Numbers in bytes, the lowest byte first.

#![tactic(auto)]

ghost use Rattle.std.specs.Prelude.{ℕ, ◌≡◌, length, ◌+◌, ◌≤◌, ◌<◌, ◌^◌};
ghost use Rattle.std.proofs.lemmas.List.Edits.{sets};
ghost use Rattle.little_endian.specs.Number.{number_at, bytes_of};

// A number that stands in so many bytes.
pub trait Number {
    ghost width: { ℕ };

    ghost value: { Self → ℕ };

    // The number that stands first.
    fn first_of(bytes: &[u8]) -> Self
        requires { width ≤ length bytes.now }
        ensures { value result ≡ number_at width bytes.now 0 };
}

impl Number for u16 {
    ghost width = { 2 };

    ghost value = { λ n. n };

    #[tactic(auto, unfolding(crate::specs::Number::number_at))]
    fn first_of(bytes: &[u8]) -> u16 {
        u16::from_le_bytes([bytes[0], bytes[1]])
    }
}

impl Number for u32 {
    ghost width = { 4 };

    ghost value = { λ n. n };

    #[tactic(auto, unfolding(crate::specs::Number::number_at))]
    fn first_of(bytes: &[u8]) -> u32 {
        u32::from_le_bytes([bytes[0], bytes[1], bytes[2], bytes[3]])
    }
}

impl Number for u64 {
    ghost width = { 8 };

    ghost value = { λ n. n };

    #[tactic(auto, unfolding(crate::specs::Number::number_at))]
    fn first_of(bytes: &[u8]) -> u64 {
        u64::from_le_bytes([
            bytes[0], bytes[1], bytes[2], bytes[3], bytes[4], bytes[5], bytes[6], bytes[7],
        ])
    }
}

// The number whose bytes stand from index `at` on.
pub fn number_at<N: Number>(bytes: &[u8], at: usize) -> N
    requires { at + N.width ≤ length bytes.now }
    ensures value { N.value result ≡ number_at N.width bytes.now at }
    ensures small { N.value result < 256 ^ N.width }
{
    N::first_of(&bytes[at..])
}

// Puts a number's `width` lowest bytes in from index `at` on. By hand, and not from `to_le_bytes`: the width may be any, and a
// copy of a variable length would ask a C host for memmove.
pub fn put(bytes: &mut [u8], at: usize, width: usize, number: u64)
    requires { at + width ≤ length bytes.old }
    ensures { bytes.new ≡ sets bytes.old at (bytes_of width number) }
{
    let mut rest = number;
    for byte in &mut bytes[at..at + width] {
        *byte = (rest % 256) as u8;
        rest /= 256;
    }
}
