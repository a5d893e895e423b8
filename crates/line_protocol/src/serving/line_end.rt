//! The end of a line.
ghost use Rattle.std.specs.Prelude.{◌≡◌, ◌≤◌, length, take};
ghost use Rattle.std.specs.Str.Lines.{strip_carriage_return};

/// Returns the length of a line without a carriage return at its end.
pub(crate) fn line_len(line: &[u8]) -> usize
    ensures within { result ≤ length line.now }
    ensures stripped { take result line.now ≡ strip_carriage_return line.now }
{
    let len = line.len();
    if len > 0 && line[len - 1] == b'\r' {
        len - 1
    } else {
        len
    }
}
