//! Parts of slices of bytes, written at once.
ghost use Rattle.std.specs.Prelude.{◌≡◌, ℕ, ◌+◌, ◌-◌, ◌≤◌, if◌then◌else◌, length, slice_index};
ghost use Rattle.shadow_memory.specs.Places.{is_between};
ghost use Rattle.shadow_memory.specs.Changes.{overwritten};

/// Sets the bytes from one place up to, but not including, another.
pub(crate) fn set_all(bytes: &mut [u8], from: usize, to: usize, byte: u8)
    requires order { from ≤ to }
    requires within { to ≤ length bytes.old }
    ensures { (k : ℕ) → slice_index bytes.new k ≡ (if is_between from to k then byte else slice_index bytes.old k) }
{
    for i in from..to {
        bytes[i] = byte;
    }
}

/// Writes bytes from a place on.
#[inline(always)]
pub(crate) fn write_at(bytes: &mut [u8], at: usize, made: &[u8])
    requires { at + length made.now ≤ length bytes.old }
    ensures { (k : ℕ) → slice_index bytes.new k ≡ overwritten bytes.old at made.now k }
{
    // A whole word, in one instruction.
    if let [first, second, third, fourth] = made {
        bytes[at] = *first;
        bytes[at + 1] = *second;
        bytes[at + 2] = *third;
        bytes[at + 3] = *fourth;
        return;
    }
    for i in 0..made.len() {
        bytes[at + i] = made[i];
    }
}

/// Writes bytes from a place on, with zeros after them, over `count` places.
pub(crate) fn fill_at(bytes: &mut [u8], at: usize, count: usize, made: &[u8])
    requires { at + count ≤ length bytes.old }
    ensures { (k : ℕ) → slice_index bytes.new k ≡ (if is_between at (at + count) k then slice_index made.now (k - at) else slice_index bytes.old k) }
{
    let len = made.len().min(count);
    write_at(bytes, at, &made[..len]);
    set_all(bytes, at + len, at + count, 0);
}
