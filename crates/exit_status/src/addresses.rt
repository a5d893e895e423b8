//! An address as text.
ghost use Rattle.std.specs.Prelude.{◌≡◌, ◌<◌, false};
ghost use Rattle.std.specs.Fmt.{digit_glyph};
ghost use Rattle.report_lines.specs.Text.{address_text};

/// Returns a hexadecimal digit, in lower case.
fn hex_glyph(n: u32) -> u8
    requires { n < 16 }
    ensures { result ≡ digit_glyph false n }
{
    let n = n as u8;
    if n < 10 { b'0' + n } else { b'a' - 10 + n }
}

/// Returns an address as reports have it: `0x` and eight hexadecimal digits.
#[tactic(auto, unfolding(report_lines::specs::Text::address_text))]
pub(crate) fn address_glyphs(a: u32) -> [u8; 10]
    ensures { result ≡ address_text a }
{
    [
        b'0',
        b'x',
        hex_glyph((a >> 28) % 16),
        hex_glyph((a >> 24) % 16),
        hex_glyph((a >> 20) % 16),
        hex_glyph((a >> 16) % 16),
        hex_glyph((a >> 12) % 16),
        hex_glyph((a >> 8) % 16),
        hex_glyph((a >> 4) % 16),
        hex_glyph(a % 16),
    ]
}
