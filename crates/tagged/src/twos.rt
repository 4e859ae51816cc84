// A signed number and its 64 bits in two's complement.
ghost use Rattle.std.specs.Prelude.{◌≡◌};
ghost use Rattle.std.specs.Int.{w64};
ghost use Rattle.std.proofs.Common.{to_z, of_z};

// The bits of a number.
pub fn bits_of(z: i64) -> u64
    ensures { result ≡ of_z w64 z }
{
    z.cast_unsigned()
}

// The number with these bits.
pub fn of_bits(bits: u64) -> i64
    ensures { result ≡ to_z w64 bits }
{
    bits.cast_signed()
}
