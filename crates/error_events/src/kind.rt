use crate::parameter::Parameter;

/// What is wrong with a parameter of a call (Memcheck manual, section 4.2.3).
#[derive(Clone, Copy, PartialEq, Eq, Hash)]
pub enum ParameterFault {
    /// A register has an undefined bit.
    Contains,
    /// A byte of the buffer has an undefined bit.
    Uninit,
    /// A byte of the buffer may not be accessed.
    Unaddressable,
}

/// The kind of an error (Memcheck manual, section 4.2). Each kind has one text in a report.
#[derive(Clone, Copy, PartialEq, Eq, Hash)]
pub enum Kind {
    /// A read, of this number of bytes, of which one may not be accessed.
    Read(u8),
    /// A write, of this number of bytes, of which one may not be accessed.
    Write(u8),
    /// A use of undefined bits as an address, or an instruction word that has an undefined bit.
    Value,
    /// A conditional jump that depends on undefined bits.
    Cond,
    /// A parameter of a call.
    Param(Parameter, ParameterFault),
    /// A free or a realloc of an address at which no live block starts.
    Free,
    /// A jump to bytes that may not be accessed.
    Jump,
}
