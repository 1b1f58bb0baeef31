ghost use Rattle.std.specs.Prelude.{◌≡◌};
ghost use Rattle.model.specs.Values.{value_of, byte_of};

/// An audio offset in frames.
pub type Value = i8;

// Calls of their own rather than the casts, since both ways are stated here as each other's inverse.
/// The value that a byte stands for: 00 to 7F are 0 to 127, and 80 to FF are -128 to -1.
pub fn value_of(byte: u8) -> Value
    ensures is { result ≡ value_of byte }
    ensures back { byte_of result ≡ byte }
{
    byte.cast_signed()
}

/// The byte that stands for a value.
pub fn byte_of(value: Value) -> u8
    ensures is { result ≡ byte_of value }
    ensures back { value_of result ≡ value }
{
    value.cast_unsigned()
}
