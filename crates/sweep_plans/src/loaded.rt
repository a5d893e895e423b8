//! The words of a program that can be edited.
ghost use Rattle.std.specs.Prelude.{◌≡◌, ◌*◌, ◌<◌, ◌≤◌, ◌^◌};
ghost use Rattle.guest_elf.specs.Images.{is_word};
ghost use Rattle.sweep_plans.specs.Plans.{any_word, count};

use crate::plan::Places;
use guest_elf::Image;

/// Returns whether a word, given by a quarter of its address, is loaded whole.
fn is_word(image: &Image, word: u32) -> bool
    requires { word < 2 ^ 30 }
    ensures { result ≡ is_word image.now (4 * word) }
{
    image.is_word(4 * word)
}

/// Returns whether one of some words, given by a quarter of their addresses, is loaded whole.
pub fn has_word(image: &Image, words: Places) -> bool
    requires { words.end ≤ 2 ^ 30 }
    ensures { result ≡ any_word image.now words.first (count words) }
{
    for i in 0..words.count() {
        if is_word(image, words.first + i) {
            return true;
        }
    }
    false
}
