//! Loads and stores of words, and changes of bytes from outside the program.
ghost use Rattle.std.specs.Prelude.{◌≡◌, ℕ, ◌+◌, ◌*◌, ◌%◌, ◌^◌, ◌<◌, ◌≤◌, None, IfOk, IfSome, IsTrue, IsFalse, OnOk, OnErr};
ghost use Rattle.shadow_memory.specs.Cells.{set_at};
ghost use Rattle.shadow_memory.specs.Ranges.{above, byte_of, changed_in, little_word, window, written};
ghost use Rattle.shadow_memory.specs.Shadows.{loaded_undef, stored_undef, first_inaccessible, HasDefined};
ghost use Rattle.shadow_memory.specs.Changes.{stored, IsWidth, SomeFront};
ghost use Rattle.shadow_memory.specs.Loads.{loaded_at};
ghost use Rattle.shadow_memory.specs.Fronts.{HasStored};
ghost use Rattle.shadow_memory.specs.Memories.{bytes_in, shadows_in, cells_of};
ghost use Rattle.shadow_memory.specs.Places.{page_len};

use crate::cells::{Cell, Loaded};
use crate::edits::PageEdit;
use crate::memory::Memory;
use crate::pages::PAGE;
use crate::words::{ABSENT, byte_at, has_all_bits, loaded_from, stored_cell, word_bytes};
use definedness::Bits;
use std::alloc::AllocError;

impl Memory {
    /// Returns the low `n` bytes at an address, their undefined bits, and the first inaccessible address among them. `n` is 1, 2 or 4. The
    /// bits above the `n` bytes are 0.
    #[inline(always)]
    #[tactic(auto, unfolding(crate::specs::Loads::loaded_at, crate::specs::Ranges::window, crate::specs::Shadows::first_inaccessible, crate::specs::Memories::bytes_in, crate::specs::Memories::shadows_in))]
    pub fn load(&self, addr: u32, n: u32) -> Loaded
        requires { IsWidth n }
        ensures value { result.value ≡ little_word (window (bytes_in self.now) addr n) }
        ensures undef { result.undef ≡ little_word (window (λ a. loaded_undef (shadows_in self.now a)) addr n) }
        ensures bad { result.bad ≡ first_inaccessible (shadows_in self.now) addr n }
        ensures small { result.value < 2 ^ (8 * n) }
        ensures small_undef { result.undef < 2 ^ (8 * n) }
    {
        self.load_at(addr, n)
    }

    /// Returns the number of `n` bytes at an address, as [`Memory::load`] does, if one look-up shows that they are all accessible and
    /// defined. Returns `None` for bytes of two pages and for unchanged zeros.
    #[inline(always)]
    #[tactic(auto, unfolding(crate::specs::Loads::loaded_at, crate::specs::Ranges::window, crate::specs::Shadows::first_inaccessible, crate::specs::Memories::bytes_in, crate::specs::Memories::shadows_in))]
    pub fn defined(&self, addr: u32, n: u32) -> Option<u32>
        requires { IsWidth n }
        ensures has { IfSome result (λ value. HasDefined (bytes_in self.now) (shadows_in self.now) addr n value) }
        ensures small { IfSome result (λ value. value < 2 ^ (8 * n)) }
    {
        self.defined_at(addr, n)
    }

    // The same for cells.
    #[inline(always)]
    fn defined_at(&self, addr: u32, n: u32) -> Option<u32>
        requires { IsWidth n }
        ensures value { IfSome result (λ value. loaded_at (λ i. cells_of self.now (above addr i)) addr n ≡ record { value = value; undef = 0; bad = None }) }
        ensures small { IfSome result (λ value. value < 2 ^ (8 * n)) }
    {
        let place = addr as usize % PAGE;
        if place + n as usize <= PAGE {
            self.view(addr).defined(place, n)
        } else {
            None
        }
    }

    // The same for cells. Needs one look-up if they lie in one page.
    #[inline(always)]
    fn load_at(&self, addr: u32, n: u32) -> Loaded
        requires { IsWidth n }
        ensures value { result ≡ loaded_at (λ i. cells_of self.now (above addr i)) addr n }
        ensures small { result.value < 2 ^ (8 * n) }
        ensures small_undef { result.undef < 2 ^ (8 * n) }
    {
        let place = addr as usize % PAGE;
        if place + n as usize <= PAGE {
            self.view(addr).load(place, addr, n)
        } else {
            self.load_cells(addr, n)
        }
    }

    // Loads byte by byte, from one page and the next.
    #[cold]
    #[inline(never)]
    #[tactic(auto, unfolding(crate::specs::Loads::loaded_at, crate::specs::Ranges::little_word, crate::specs::Ranges::first_from))]
    fn load_cells(&self, addr: u32, n: u32) -> Loaded
        requires { IsWidth n }
        ensures value { result ≡ loaded_at (λ i. cells_of self.now (above addr i)) addr n }
        ensures small { result.value < 2 ^ (8 * n) }
        ensures small_undef { result.undef < 2 ^ (8 * n) }
    {
        let first = self.cell(addr.wrapping_add(0));
        match n {
            1 => loaded_from(addr, first, ABSENT, ABSENT, ABSENT),
            2 => {
                let second = self.cell(addr.wrapping_add(1));
                loaded_from(addr, first, second, ABSENT, ABSENT)
            }
            _ => {
                let second = self.cell(addr.wrapping_add(1));
                let third = self.cell(addr.wrapping_add(2));
                let fourth = self.cell(addr.wrapping_add(3));
                loaded_from(addr, first, second, third, fourth)
            }
        }
    }

    /// Stores the low `n` bytes of a number with its undefined bits, and returns the first inaccessible address. `n` is 1, 2 or 4. An
    /// inaccessible byte takes its value and stays inaccessible. On an error, a front of them is stored.
    #[inline(always)]
    pub fn store(&mut self, addr: u32, n: u32, bits: Bits) -> Result<Option<u32>, AllocError>
        requires { IsWidth n }
        ensures bad { IfOk result (λ bad. bad ≡ first_inaccessible (shadows_in self.old) addr n) }
        ensures bytes { OnOk result (bytes_in self.new ≡ written (bytes_in self.old) addr n (byte_of bits.value)) }
        ensures shadows { OnOk result (shadows_in self.new ≡ stored_undef (shadows_in self.old) addr n bits.undef) }
        ensures err { OnErr result (SomeFront n (λ k. HasStored self.old self.new addr k bits)) }
    {
        if self.store_at_once(addr, n, bits) {
            return Ok(None);
        }
        self.store_anywhere(addr, n, bits)
    }

    /// Stores as [`Memory::store`] does, by one look-up and without allocating, if the bits are defined, the bytes lie in one page that no
    /// other memory shares, and what is there is all accessible. Returns whether it did.
    #[inline(always)]
    pub fn store_at_once(&mut self, addr: u32, n: u32, bits: Bits) -> bool
        requires { IsWidth n }
        ensures bad { IsTrue result → first_inaccessible (shadows_in self.old) addr n ≡ None }
        ensures bytes { IsTrue result → bytes_in self.new ≡ written (bytes_in self.old) addr n (byte_of bits.value) }
        ensures shadows { IsTrue result → shadows_in self.new ≡ stored_undef (shadows_in self.old) addr n bits.undef }
        ensures bytes_kept { IsFalse result → bytes_in self.new ≡ bytes_in self.old }
        ensures shadows_kept { IsFalse result → shadows_in self.new ≡ shadows_in self.old }
    {
        self.put_word(addr, n, bits)
    }

    // The same for cells: by one look-up, without allocating, if the bits are defined, the bytes lie in one page that no other memory
    // shares, and the bytes there are all accessible. Returns whether it did.
    #[inline(always)]
    fn put_word(&mut self, addr: u32, n: u32, bits: Bits) -> bool
        requires { IsWidth n }
        ensures done { IsTrue result → cells_of self.new ≡ changed_in (cells_of self.old) addr n (stored bits) }
        ensures whole { IsTrue result → None ≡ first_inaccessible (shadows_in self.old) addr n }
        ensures kept { IsFalse result → cells_of self.new ≡ cells_of self.old }
    {
        if bits.undef != 0 || addr as usize % PAGE + n as usize > PAGE {
            return false;
        }
        let bytes = word_bytes(bits.value);
        self.put(addr, &bytes[..n as usize])
    }

    // Stores any bytes: one look-up finds the inaccessible address, and others store.
    #[inline(never)]
    fn store_anywhere(&mut self, addr: u32, n: u32, bits: Bits) -> Result<Option<u32>, AllocError>
        requires { IsWidth n }
        ensures bad { IfOk result (λ bad. bad ≡ first_inaccessible (shadows_in self.old) addr n) }
        ensures bytes { OnOk result (bytes_in self.new ≡ written (bytes_in self.old) addr n (byte_of bits.value)) }
        ensures shadows { OnOk result (shadows_in self.new ≡ stored_undef (shadows_in self.old) addr n bits.undef) }
        ensures err { OnErr result (SomeFront n (λ k. HasStored self.old self.new addr k bits)) }
    {
        let bad = self.load(addr, n).bad;
        self.store_at(addr, n, bits)?;
        Ok(bad)
    }

    // Stores cells, by one change if they lie in one page and are stored all defined or all undefined.
    fn store_at(&mut self, addr: u32, n: u32, bits: Bits) -> Result<(), AllocError>
        requires { IsWidth n }
        ensures ok { OnOk result (cells_of self.new ≡ changed_in (cells_of self.old) addr n (stored bits)) }
        ensures err { OnErr result (SomeFront n (λ k. cells_of self.new ≡ changed_in (cells_of self.old) addr k (stored bits))) }
    {
        if addr as usize % PAGE + n as usize > PAGE {
            self.store_cells(addr, n, bits)
        } else if bits.undef == 0 {
            self.store_defined(addr, n, bits.value)
        } else if has_all_bits(bits.undef, n) {
            self.store_undefined(addr, n, bits)
        } else {
            self.store_cells(addr, n, bits)
        }
    }

    // Stores defined bytes in one page, all of them or none.
    #[tactic(auto, unfolding(crate::specs::Edits::count_of, crate::specs::Edits::change_of, crate::specs::Edits::Fits))]
    fn store_defined(&mut self, addr: u32, n: u32, value: u32) -> Result<(), AllocError>
        requires width { n ≤ 4 }
        requires one_page { addr % page_len + n ≤ page_len }
        ensures ok { OnOk result (cells_of self.new ≡ changed_in (cells_of self.old) addr n (stored (record { value = value; undef = 0 }))) }
        ensures err { OnErr result (cells_of self.new ≡ cells_of self.old) }
    {
        let bytes = word_bytes(value);
        self.change(addr, &PageEdit::Store(&bytes[..n as usize]))
    }

    // Stores bytes all of whose bits are undefined in one page, all of them or none.
    #[tactic(auto, unfolding(crate::specs::Edits::count_of, crate::specs::Edits::change_of, crate::specs::Edits::Fits))]
    fn store_undefined(&mut self, addr: u32, n: u32, bits: Bits) -> Result<(), AllocError>
        requires width { n ≤ 4 }
        requires one_page { addr % page_len + n ≤ page_len }
        requires undefined { (i : ℕ) → i < n → byte_of bits.undef i ≡ 255 }
        ensures ok { OnOk result (cells_of self.new ≡ changed_in (cells_of self.old) addr n (stored bits)) }
        ensures err { OnErr result (cells_of self.new ≡ cells_of self.old) }
    {
        let bytes = word_bytes(bits.value);
        self.change(addr, &PageEdit::StoreUndefined(&bytes[..n as usize]))
    }

    // Stores cell by cell.
    #[inline(never)]
    #[tactic(auto, unfolding(crate::specs::Edits::count_of, crate::specs::Edits::change_of, crate::specs::Edits::Fits))]
    fn store_cells(&mut self, addr: u32, n: u32, bits: Bits) -> Result<(), AllocError>
        requires { n ≤ 4 }
        ensures ok { OnOk result (cells_of self.new ≡ changed_in (cells_of self.old) addr n (stored bits)) }
        ensures err { OnErr result (SomeFront n (λ k. cells_of self.new ≡ changed_in (cells_of self.old) addr k (stored bits))) }
    {
        for i in 0..n {
            let at = addr.wrapping_add(i);
            let cell = self.cell(at);
            self.change(at, &PageEdit::Set(stored_cell(bits, i, cell)))?;
        }
        Ok(())
    }

    /// Changes the byte at an address. Its accessibility and undefined bits stay.
    #[tactic(auto, unfolding(crate::specs::Edits::count_of, crate::specs::Edits::change_of, crate::specs::Edits::Fits))]
    pub fn poke(&mut self, addr: u32, byte: u8) -> Result<(), AllocError>
        ensures bytes { OnOk result (bytes_in self.new ≡ set_at (bytes_in self.old) addr byte) }
        ensures shadows { shadows_in self.new ≡ shadows_in self.old }
        ensures err { OnErr result (bytes_in self.new ≡ bytes_in self.old) }
    {
        let cell = self.cell(addr);
        self.change(
            addr,
            &PageEdit::Set(Cell {
                byte,
                accessible: cell.accessible,
                undef: cell.undef,
            }),
        )
    }

    /// Changes the four bytes of a word. Their accessibility and undefined bits stay. On an error, a front of them is changed.
    pub fn poke_word(&mut self, addr: u32, word: u32) -> Result<(), AllocError>
        ensures bytes { OnOk result (bytes_in self.new ≡ written (bytes_in self.old) addr 4 (byte_of word)) }
        ensures shadows { shadows_in self.new ≡ shadows_in self.old }
        ensures err { OnErr result (SomeFront 4 (λ k. bytes_in self.new ≡ written (bytes_in self.old) addr k (byte_of word))) }
    {
        self.poke_bytes(addr, 4, word)
    }

    /// Changes the two bytes of a half. Their accessibility and undefined bits stay. On an error, a front of them is changed.
    pub fn poke_half(&mut self, addr: u32, half: u16) -> Result<(), AllocError>
        ensures bytes { OnOk result (bytes_in self.new ≡ written (bytes_in self.old) addr 2 (byte_of half)) }
        ensures shadows { shadows_in self.new ≡ shadows_in self.old }
        ensures err { OnErr result (SomeFront 2 (λ k. bytes_in self.new ≡ written (bytes_in self.old) addr k (byte_of half))) }
    {
        self.poke_bytes(addr, 2, u32::from(half))
    }

    /// Changes up to four bytes to the lowest ones of a number.
    fn poke_bytes(&mut self, addr: u32, len: u32, number: u32) -> Result<(), AllocError>
        requires { len ≤ 4 }
        ensures bytes { OnOk result (bytes_in self.new ≡ written (bytes_in self.old) addr len (byte_of number)) }
        ensures shadows { shadows_in self.new ≡ shadows_in self.old }
        ensures err { OnErr result (SomeFront len (λ k. bytes_in self.new ≡ written (bytes_in self.old) addr k (byte_of number))) }
    {
        for i in 0..len {
            self.poke(addr.wrapping_add(i), byte_at(number, i))?;
        }
        Ok(())
    }
}
