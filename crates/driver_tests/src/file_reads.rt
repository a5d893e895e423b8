//! Files that are read, with readers that fail.
use driver::{ReadFault, read_opened};
use std::alloc::Global;
use std::io;
use std::io::ErrorKind;
use test_support::Script;

/// A file: one from which a number of bytes are read before a read fails, one that isn't there, and one for which memory runs out.
enum Opened {
    Script(usize),
    Missing,
    NoMemory,
}

/// A file of three bytes, how many are asked for, and the result: `!` for a file that can't be read, `?` if memory ran out.
const FILES: [(Opened, usize, &[u8]); 6] = [
    (Opened::Script(usize::MAX), 4, b"abc"),
    (Opened::Script(usize::MAX), 3, b"abc"),
    (Opened::Script(usize::MAX), 2, b"ab"),
    (Opened::Script(2), 4, b"!"),
    (Opened::Missing, 4, b"!"),
    (Opened::NoMemory, 4, b"?"),
];

/// A file that is opened, or why it isn't.
fn opened_of(opened: &Opened) -> io::Result<Script<'static>> {
    match opened {
        Opened::Script(bytes) => {
            let mut script = Script::new(b"abc");
            script.bytes = *bytes;
            Ok(script)
        }
        Opened::Missing => Err(io::Error::from(ErrorKind::NotFound)),
        Opened::NoMemory => Err(io::Error::from(ErrorKind::OutOfMemory)),
    }
}

/// Whether a file gives that.
fn gives(alloc: Global, opened: &Opened, most: usize, want: &[u8]) -> bool {
    match read_opened(alloc, opened_of(opened), most) {
        Ok(bytes) => bytes.as_slice() == want,
        Err(ReadFault::Unreadable) => want == b"!".as_slice(),
        Err(ReadFault::NoMemory) => want == b"?".as_slice(),
    }
}

/// The first bytes of a file, or why there are none.
#[test]
fn files_are_read(rt: HostRuntime) {
    for (i, (opened, most, want)) in FILES.iter().enumerate() {
        assert!(rt; gives(rt.alloc(), opened, *most, want), "file {i}");
    }
}
