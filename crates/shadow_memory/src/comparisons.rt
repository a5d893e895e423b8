//! Comparisons of two memories, page by page.
ghost use Rattle.std.specs.Prelude.{◌≡◌, ℕ, ◌+◌, ◌^◌, ◌≤◌, IsTrue};
ghost use Rattle.shadow_memory.specs.Memories.{bytes_in, shadows_in};
ghost use Rattle.shadow_memory.specs.Ranges.{little_word, window};
ghost use Rattle.shadow_memory.specs.Shadows.{HasDefined};

use crate::memory::Memory;
use crate::pages::PAGE;
use crate::ranges::count_in_page;

impl Memory {
    /// Returns whether the bytes of a range are the same in another memory, and all of them are accessible and defined here. May also
    /// return `false` for such ranges, as it does for a page that is blank in either memory.
    pub fn has_bytes_of(&self, other: &Memory, from: u32, len: u32) -> bool
        requires { from + len ≤ 2 ^ 32 }
        ensures { IsTrue result → (a n : ℕ) → n ≤ 4 → from ≤ a → a + n ≤ from + len
            → HasDefined (bytes_in self.now) (shadows_in self.now) a n (little_word (window (bytes_in other.now) a n)) }
    {
        let mut done = 0;
        while done < len {
            let at = from + done;
            let count = count_in_page(at, len - done);
            let place = at as usize % PAGE;
            let end = place + count as usize;
            if !self.view(at).has_bytes_of(other.view(at), place, end) {
                return false;
            }
            done += count;
        }
        true
    }
}
