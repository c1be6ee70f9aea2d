// The checksum of bytes. Assumes nothing.
ghost use Rattle.std.specs.Prelude.{◌≡◌};
ghost use Rattle.sums.specs.Sum.{with_bit, bits_down, remainder, sum_of};

// What the checksum begins with.
const BEGINNING: u16 = 0xffff;

// The polynomial without x^16 and 1, which a rotation brings round by itself.
const MIDDLE_TERMS: u16 = 0x1020;

// The register after one bit more, which is 0.
pub fn shift(register: u16) -> u16
    ensures { result ≡ with_bit register 0 }
{
    let turned = register.rotate_left(1);
    if turned & 1 == 0 {
        turned
    } else {
        turned ^ MIDDLE_TERMS
    }
}

// The register after the eight bits of a byte more: turned by a byte, where each bit that came round stands for x^12 + x^5 + 1.
// Of those in the upper half of the byte x^12 comes round once more.
fn add_byte(register: u16, byte: u8) -> u16
    ensures { result ≡ remainder register (bits_down 8 byte) }
{
    let turned = register.rotate_left(8) ^ u16::from(byte);
    let round = turned & 0xff;
    let carried = round ^ (round >> 4);
    turned ^ carried.rotate_left(5) ^ carried.rotate_left(12)
}

// CRC-16 by x^16 + x^12 + x^5 + 1, begun with 65,535.
pub fn checksum(bytes: &[u8]) -> u16
    ensures { result ≡ sum_of bytes.now }
{
    bytes
        .iter()
        .fold(BEGINNING, |register, byte| add_byte(register, *byte))
}
