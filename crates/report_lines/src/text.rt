//! The pieces of a report's lines.
ghost use Rattle.std.specs.Prelude.{◌≡◌, ◌++◌, ◌/◌, ◌%◌, ◌^◌, ◌<◌, ◌≤◌, OnOk, OnErr, false, map};
ghost use Rattle.std.specs.Fmt.{decimal, digit_glyph};
ghost use Rattle.report_lines.specs.Text.{address_text, byte_text, shown_byte, shown_name};

use itoa::Buffer;
use std::alloc::AllocError;

/// Appends bytes.
pub fn push_text(out: &mut Vec<u8>, text: &[u8]) -> Result<(), AllocError>
    ensures { OnOk result (out.new.items ≡ out.old.items ++ text.now) }
{
    out.extend_from_slice(text)?;
    Ok(())
}

/// Appends a decimal number.
pub fn push_number(out: &mut Vec<u8>, n: u64) -> Result<(), AllocError>
    ensures { OnOk result (out.new.items ≡ out.old.items ++ decimal n) }
{
    let mut buffer = Buffer::new();
    push_text(out, buffer.format(n).as_bytes())
}

/// Returns a hexadecimal digit, in lower case.
fn hex_glyph(n: u32) -> u8
    requires { n < 16 }
    ensures { result ≡ digit_glyph false n }
{
    let n = n as u8;
    if n < 10 { b'0' + n } else { b'a' - 10 + n }
}

/// Appends an address: `0x` and eight hexadecimal digits.
#[tactic(auto, unfolding(crate::specs::Text::address_text), using(std::proofs::Common::append_assoc))]
pub fn push_address(out: &mut Vec<u8>, a: u32) -> Result<(), AllocError>
    ensures { OnOk result (out.new.items ≡ out.old.items ++ address_text a) }
{
    let text = [
        b'0',
        b'x',
        hex_glyph((a >> 28) % 16),
        hex_glyph((a >> 24) % 16),
        hex_glyph((a >> 20) % 16),
        hex_glyph((a >> 16) % 16),
        hex_glyph((a >> 12) % 16),
        hex_glyph((a >> 8) % 16),
        hex_glyph((a >> 4) % 16),
        hex_glyph(a % 16),
    ];
    push_text(out, &text)
}

/// Appends a byte: two hexadecimal digits.
#[tactic(auto, unfolding(crate::specs::Text::byte_text))]
pub fn push_byte(out: &mut Vec<u8>, b: u8) -> Result<(), AllocError>
    ensures { OnOk result (out.new.items ≡ out.old.items ++ byte_text b) }
{
    let b = u32::from(b);
    push_text(out, &[hex_glyph((b >> 4) % 16), hex_glyph(b % 16)])
}

/// Returns a byte of a name as it is shown.
fn shown_byte(b: u8) -> u8
    ensures { result ≡ shown_byte b }
{
    if 0x21 <= b && b <= 0x7E { b } else { b'?' }
}

/// Appends a name, with `?` for each byte that isn't a printable ASCII character, or is a space.
#[tactic(auto, unfolding(crate::specs::Text::shown_name))]
pub fn push_name(out: &mut Vec<u8>, name: &[u8]) -> Result<(), AllocError>
    ensures { OnOk result (out.new.items ≡ out.old.items ++ shown_name name.now) }
{
    for b in name {
        out.push(shown_byte(*b))?;
    }
    Ok(())
}
