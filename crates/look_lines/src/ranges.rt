//! The range of a program's addresses of which sides are told.
ghost use Rattle.std.specs.Prelude.{◌≡◌};
ghost use Rattle.look_lines.specs.Ranges.{range_at, range_in, range_of};

use guest_elf::{Image, Segment};
use guest_machine::Span;

/// The greatest number of bytes of the range.
const LONGEST_RANGE: usize = 4_194_304;

/// The range of a segment: from a multiple of four on, its bytes of the file.
fn range_in(segment: &Segment<'_>) -> Span
    ensures { result ≡ range_in segment.now }
{
    let before = segment.vaddr % 4;
    let len = before as usize + segment.bytes.len();
    Span {
        start: segment.vaddr - before,
        len: len.min(LONGEST_RANGE) as u32,
    }
}

/// The range of the segment that has an address.
fn range_at(entry: u32, segments: &[Segment<'_>]) -> Span
    ensures { result ≡ range_at entry segments.now }
{
    let mut range = Span { start: 0, len: 0 };
    for segment in segments {
        if segment.has(entry) {
            range = range_in(segment);
        }
    }
    range
}

/// Returns the range of addresses of which a program's sides are told: of the segment in which it begins, the bytes of the file, from the
/// multiple of four before them on, and at most 4 MiB.
#[tactic(auto, unfolding(crate::specs::Ranges::range_of))]
pub fn range_of(image: &Image<'_>) -> Span
    ensures { result ≡ range_of image.now }
{
    range_at(image.entry(), image.segments())
}
