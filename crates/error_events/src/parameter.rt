ghost use Rattle.std.specs.Prelude.{◌≡◌};
ghost use Rattle.error_events.specs.Parameters.{parameter_text};

/// A parameter of a call, as reports name it.
#[derive(Clone, Copy, PartialEq, Eq, Hash)]
pub enum Parameter {
    SyscallNumber,
    ReadFd,
    ReadBuffer,
    ReadCount,
    WriteFd,
    WriteBuffer,
    WriteCount,
    ExitStatus,
    ExitGroupStatus,
    MallocSize,
    FreePointer,
    CallocMembers,
    CallocSize,
    ReallocPointer,
    ReallocSize,
}

impl Parameter {
    /// Returns the parameter's text.
    pub fn text(self) -> &'static [u8]
        ensures { result.now ≡ parameter_text self }
    {
        match self {
            Parameter::SyscallNumber => b"(syscallno)",
            Parameter::ReadFd => b"read(fd)",
            Parameter::ReadBuffer => b"read(buf)",
            Parameter::ReadCount => b"read(count)",
            Parameter::WriteFd => b"write(fd)",
            Parameter::WriteBuffer => b"write(buf)",
            Parameter::WriteCount => b"write(count)",
            Parameter::ExitStatus => b"exit(status)",
            Parameter::ExitGroupStatus => b"exit_group(status)",
            Parameter::MallocSize => b"malloc(size)",
            Parameter::FreePointer => b"free(p)",
            Parameter::CallocMembers => b"calloc(nmemb)",
            Parameter::CallocSize => b"calloc(size)",
            Parameter::ReallocPointer => b"realloc(p)",
            Parameter::ReallocSize => b"realloc(size)",
        }
    }
}
