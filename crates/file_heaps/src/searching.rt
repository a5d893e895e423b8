//! Searches in names.
ghost use Rattle.std.specs.Prelude.{◌≡◌, ◌==◌};
ghost use Rattle.file_heaps.specs.Names.{has_part, is_among};

use texts::Parts;

/// Returns whether a name is one of those that a text lists, between separators.
#[tactic(auto, unfolding(crate::specs::Names::is_among))]
pub(crate) fn is_among(separator: u8, text: &[u8], name: &[u8]) -> bool
    ensures { result ≡ is_among separator text.now name.now }
{
    let mut parts = Parts::new(text, separator);
    while let Some(part) = parts.next() {
        if name == part {
            return true;
        }
    }
    false
}

/// Returns whether these bytes appear in a name.
#[tactic(auto, unfolding(crate::specs::Names::has_part))]
pub(crate) fn has_part(part: &[u8], name: &[u8]) -> bool
    ensures { result ≡ has_part part.now name.now }
{
    let mut rest = name;
    loop {
        if rest.starts_with(part) {
            return true;
        }
        match rest {
            [] => return false,
            [_, later @ ..] => rest = later,
        }
    }
}
