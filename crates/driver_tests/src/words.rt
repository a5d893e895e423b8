//! Programs that more than one table runs, and what their files are read for where nothing is said of it.

use command_line::ProfileArgs;

/// What is said of what a file is read for.
#[derive(Clone, Copy)]
pub(crate) enum Given {
    /// Nothing.
    Nothing,
    /// The name of an instruction set.
    Isa(&'static str),
    /// Where the heap's region begins.
    Heap(&'static str),
    /// Where the stack's region begins and ends.
    Stack(&'static str),
}

/// What a file is read for, by what is said of it.
pub(crate) fn profile_of(said: Given) -> ProfileArgs<'static> {
    ProfileArgs {
        isa: match said {
            Given::Isa(name) => name,
            _ => "rv32im",
        },
        heap: match said {
            Given::Heap(begin) => begin,
            _ => "0x40000000",
        },
        stack: match said {
            Given::Stack(range) => range,
            _ => "0x7f000000..0x80000000",
        },
        most_moved: None,
        most_output: None,
    }
}

/// Writes `ok!` and a newline, and exits with status 7.
pub(crate) const WRITES: [u32; 10] = [
    0x0000_0597,
    0x0245_8593,
    0x0010_0513,
    0x0040_0613,
    0x0400_0893,
    0x0000_0073,
    0x05D0_0893,
    0x0070_0513,
    0x0000_0073,
    0x0A21_6B6F,
];

/// Writes the first byte of the input, and exits with status 0. It reads in step 4.
pub(crate) const COPIES: [u32; 11] = [
    0x0000_0513,
    0x0001_0593,
    0x0010_0613,
    0x03F0_0893,
    0x0000_0073,
    0x0010_0513,
    0x0400_0893,
    0x0000_0073,
    0x05D0_0893,
    0x0000_0513,
    0x0000_0073,
];
