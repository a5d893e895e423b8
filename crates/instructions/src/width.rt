ghost use Rattle.std.specs.Prelude.{◌≡◌};
ghost use Rattle.instructions.specs.Widths.{width_len};

/// The number of bytes of a load or a store.
#[derive(Clone, Copy)]
pub enum Width {
    Byte,
    Half,
    Word,
}

impl Width {
    /// Returns the number of bytes, as an error has it.
    pub fn byte_len(self) -> u8
        ensures { result ≡ width_len self }
    {
        match self {
            Width::Byte => 1,
            Width::Half => 2,
            Width::Word => 4,
        }
    }

    /// Returns the number of bytes: 1, 2 or 4.
    pub fn len(self) -> u32
        ensures { result ≡ width_len self }
    {
        match self {
            Width::Byte => 1,
            Width::Half => 2,
            Width::Word => 4,
        }
    }
}
