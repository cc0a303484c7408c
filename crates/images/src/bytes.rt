// Fields of lent bytes. A place is counted in bits, from the most significant bit of the first byte on, and a field may run over
// byte borders. By shifts and masks of the three bytes in which it stands.
ghost use Rattle.std.specs.Prelude.{◌≡◌, ◌≤◌, length, get_or};
ghost use Rattle.tree.specs.Bits.{field_bits, number_at, bits_of};
ghost use Rattle.images.specs.Added.{Puttable, Adds};

use bits::{field_of, join};

// The byte at an index, 0 behind the last one.
fn byte_at(bytes: &[u8], index: usize) -> u64
    ensures { result ≡ get_or bytes.now index 0 }
{
    if bytes.len() <= index {
        return 0;
    }
    u64::from(bytes[index])
}

// The number of the field at a place. Behind the last byte there are zeros.
pub(crate) fn number_at(bytes: &[u8], at: usize, width: usize) -> u64
    requires { width ≤ 16 }
    ensures { result ≡ number_at width at (bits_of bytes.now) }
{
    let first = at / 8;
    let upper = join(byte_at(bytes, first), 8, byte_at(bytes, first + 1));
    let word = join(upper, 8, byte_at(bytes, first + 2));
    field_of(word, width as u64, (24 - at % 8 - width) as u64)
}

// Writes a field behind the bits that stand in a buffer so far. The last byte that it begins is filled with zeros, and the
// bytes behind that one are left alone.
pub(crate) fn put_number(buffer: &mut [u8], at: usize, width: usize, number: u64)
    requires { Puttable at width number (length buffer.old) }
    ensures { Adds at (field_bits width number) buffer.old buffer.new }
{
    let first = at / 8;
    let used = at % 8;
    // The bits that stand before the field in its first byte, the field, and zeros.
    let begun = u64::from(buffer[first]) >> (8 - used);
    let front = join(begun, width as u64, number);
    let word = join(front, (24 - used - width) as u64, 0);
    for k in 0..(used + width).div_ceil(8) {
        buffer[first + k] = field_of(word, 8, (16 - 8 * k) as u64) as u8;
    }
}
