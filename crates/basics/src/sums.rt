//! Checksums.

ghost use Rattle.std.specs.Prelude.{◌≡◌, ◌%◌};
ghost use Rattle.basics.specs.Sums.{byte_sum};

/// The sum of all bytes, modulo 256.
pub fn byte_sum(bytes: &[u8]) -> u8
    ensures { result ≡ byte_sum bytes.now % 256 }
{
    let mut sum: u8 = 0;
    for byte in bytes {
        sum = sum.wrapping_add(*byte);
    }
    sum
}
