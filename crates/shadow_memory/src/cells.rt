//! What one address holds, and the values that the calls of a memory take and return.
ghost use Rattle.std.specs.Prelude.{◌≡◌};
ghost use Rattle.shadow_memory.specs.Cells.{IsClean};
ghost use Rattle.shadow_memory.specs.Marks.{blank, mark_of, marked, shadow_of_mark, IsCleanMark};
ghost use Rattle.shadow_memory.specs.Shadows.{is_bad};

/// The byte at an address, whether it may be accessed, and which of its bits are undefined (a set bit is undefined). An
/// inaccessible byte has no undefined bits.
#[derive(Clone, Copy, PartialEq, Eq)]
pub struct Cell {
    pub byte: u8,
    pub accessible: bool,
    pub undef: u8,
}

/// The kind of a range of bytes (Memcheck manual, section 4.7, client requests `VALGRIND_MAKE_MEM_NOACCESS`, `_UNDEFINED` and `_DEFINED`).
#[derive(Clone, Copy, PartialEq, Eq)]
pub enum RangeKind {
    /// Inaccessible.
    NoAccess,
    /// Accessible, with all bits undefined.
    Undefined,
    /// Accessible, with all bits defined.
    Defined,
}

/// The bytes of a load as a number, its undefined bits, and the first inaccessible address among them.
#[derive(Clone, Copy)]
pub struct Loaded {
    pub value: u32,
    pub undef: u32,
    pub bad: Option<u32>,
}

/// An address that is inaccessible or has an undefined bit.
#[derive(Clone, Copy, PartialEq, Eq)]
pub struct Bad {
    pub addr: u32,
    pub accessible: bool,
}

/// What is known of a byte besides its value.
#[derive(Clone, Copy, PartialEq, Eq)]
pub(crate) struct ByteShadow {
    pub(crate) accessible: bool,
    pub(crate) undef: u8,
}

/// Returns the mark of a byte of a kind.
pub(crate) fn mark_of_kind(kind: RangeKind) -> ByteShadow
    ensures value { result ≡ mark_of kind }
    ensures clean { IsCleanMark result }
{
    match kind {
        RangeKind::NoAccess => ByteShadow {
            accessible: false,
            undef: 0,
        },
        RangeKind::Undefined => ByteShadow {
            accessible: true,
            undef: 255,
        },
        RangeKind::Defined => ByteShadow {
            accessible: true,
            undef: 0,
        },
    }
}

/// Returns the cell of a byte and a mark.
pub(crate) fn marked_cell(byte: u8, mark: ByteShadow) -> Cell
    requires { IsCleanMark mark }
    ensures value { result ≡ marked byte mark }
    ensures clean { IsClean result }
{
    Cell {
        byte,
        accessible: mark.accessible,
        undef: mark.undef,
    }
}

/// Returns byte 0, of a kind.
pub(crate) fn blank_cell(kind: RangeKind) -> Cell
    ensures value { result ≡ blank kind }
    ensures clean { IsClean result }
{
    marked_cell(0, mark_of_kind(kind))
}

/// Returns whether a byte is inaccessible or, if asked, has an undefined bit.
pub(crate) fn is_bad_mark(mark: ByteShadow, need_defined: bool) -> bool
    ensures { result ≡ is_bad need_defined (shadow_of_mark mark) }
{
    !mark.accessible || (need_defined && mark.undef != 0)
}
