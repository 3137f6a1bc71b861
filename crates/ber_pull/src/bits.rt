//! The contents of primitive BIT STRINGs (X.690 8.6.2).
ghost use Rattle.std.specs.Prelude.{◌≡◌, ◌*◌, ◌/◌, ◌^◌, ◌≤◌};
ghost use Rattle.x690.specs.ReadContents as reading;

/// The contents are those of a primitive BIT STRING: the number of unused bits, 0 where no octet follows.
pub fn is_bit_segment(contents: &[u8]) -> bool
    ensures { result ≡ reading.is_bit_segment contents.now }
{
    match contents {
        [] => false,
        [unused] => *unused == 0,
        [unused, ..] => *unused <= 7,
    }
}

/// The octet with its last `count` bits set to 0.
pub fn without_last_bits(octet: u8, count: u8) -> u8
    requires { count ≤ 7 }
    ensures { result ≡ octet / 2 ^ count * 2 ^ count }
{
    octet >> count << count
}
