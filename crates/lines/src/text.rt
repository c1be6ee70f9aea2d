// Bytes as lines of hexadecimal text. Assumes nothing.
ghost use Rattle.std.specs.Prelude.{◌≡◌, ℕ, ◌<◌, List, ◌++◌, string_bytes, OnErr, OnOk};
ghost use Rattle.std.specs.Char.{digit_char};
ghost use Rattle.lines.specs.declared.line.Ending.TheVariants.{Whole};
ghost use Rattle.lines.specs.Hex.{line_of, byte_text, hex_text};

use std::alloc::AllocError;

// The character of a hexadecimal digit.
fn digit(value: u8) -> char
    requires { value < 16 }
    ensures { result ≡ digit_char value }
{
    char::from_digit(u32::from(value), 16).unwrap()
}

// Where memory fails, the text has a first part of what was to be added; of that a formatted write (`{:02x}`) says nothing.
fn push_byte(text: &mut String, byte: u8) -> Result<(), AllocError>
    ensures value { OnOk result (string_bytes text.new ≡ string_bytes text.old ++ byte_text byte) }
    ensures first { OnErr result ((rest : List ℕ) × (string_bytes text.new ++ rest ≡ string_bytes text.old ++ byte_text byte)) }
{
    text.push(digit(byte / 16))?;
    text.push(digit(byte % 16))
}

// The line that is read as these bytes: two digits to a byte, and a blank between. Where memory fails, `text` has a first part of it.
pub fn write_line(bytes: &[u8], text: &mut String) -> Result<(), AllocError>
    ensures value { OnOk result (string_bytes text.new ≡ hex_text bytes.now) }
    ensures back { OnOk result (line_of (string_bytes text.new) ≡ record { bytes = bytes.now; ending = Whole }) }
    ensures first { OnErr result ((rest : List ℕ) × (string_bytes text.new ++ rest ≡ hex_text bytes.now)) }
{
    text.clear();
    let [byte, rest @ ..] = bytes else {
        return Ok(());
    };
    push_byte(text, *byte)?;
    for byte in rest {
        text.push(' ')?;
        push_byte(text, *byte)?;
    }
    Ok(())
}
