//! Bytes appended to the input and removed from its end, and the number of steps executed for each machine that was asked for then.

use crate::trails::{Act, Case, Program, assert_performed};
use guest_machine::Status;

const BYTES: [Case; 4] = [
    // Bytes appended to the input and removed from its end. Of n bytes, each is read by a call of its own, and the end is seen in step
    // 1205(n + 1). A trail with one byte more or less at the end than n has the machines up to there.
    (
        "bytes at the end, one a call",
        Program::ReadsBytes(1),
        &[
            Act::Ask(5000, (5000, Status::Exited(0), 0x10030, 0)),
            Act::Append(b'a'),
            Act::Ask(5000, (8976, Status::Exited(1), 0x10030, 0)),
            Act::ReplaceInput(0, b""),
            Act::Ask(5000, (12952, Status::Exited(0), 0x10030, 0)),
            Act::Append(b'b'),
            Act::Ask(5000, (16928, Status::Exited(1), 0x10030, 0)),
            Act::Append(b'c'),
            Act::Ask(5000, (19880, Status::Exited(2), 0x10030, 0)),
            Act::ReplaceInput(1, b"b"),
            Act::Ask(5000, (22832, Status::Exited(1), 0x10030, 0)),
        ],
    ),
    // The same, from two bytes on.
    (
        "two bytes and more, one a call",
        Program::ReadsBytes(1),
        &[
            Act::ReplaceInput(0, b"ab"),
            Act::Ask(5000, (5000, Status::Exited(2), 0x10030, 0)),
            Act::Append(b'c'),
            Act::Ask(5000, (6928, Status::Exited(3), 0x10030, 0)),
            Act::ReplaceInput(2, b"ab"),
            Act::Ask(5000, (8856, Status::Exited(2), 0x10030, 0)),
            Act::ReplaceInput(1, b"a"),
            Act::Ask(5000, (11808, Status::Exited(1), 0x10030, 0)),
            Act::Append(b'b'),
            Act::Ask(5000, (14760, Status::Exited(2), 0x10030, 0)),
        ],
    ),
    // The first call asks for four bytes, and sees the end if there are fewer.
    (
        "bytes at the end, four a call",
        Program::ReadsBytes(4),
        &[
            Act::Ask(5000, (5000, Status::Exited(0), 0x10030, 0)),
            Act::Append(b'a'),
            Act::Ask(5000, (8976, Status::Exited(1), 0x10030, 0)),
            Act::ReplaceInput(0, b""),
            Act::Ask(5000, (12952, Status::Exited(0), 0x10030, 0)),
            Act::Append(b'b'),
            Act::Ask(5000, (16928, Status::Exited(1), 0x10030, 0)),
            Act::Append(b'c'),
            Act::Ask(5000, (20904, Status::Exited(2), 0x10030, 0)),
            Act::ReplaceInput(1, b"b"),
            Act::Ask(5000, (24880, Status::Exited(1), 0x10030, 0)),
        ],
    ),
    // It doesn't see the end if there are exactly four: that shows one call later.
    (
        "three bytes and more, four a call",
        Program::ReadsBytes(4),
        &[
            Act::ReplaceInput(0, b"abc"),
            Act::Ask(5000, (5000, Status::Exited(3), 0x10030, 0)),
            Act::Append(b'd'),
            Act::Ask(5000, (8976, Status::Exited(4), 0x10030, 0)),
            Act::Append(b'e'),
            Act::Ask(5000, (11928, Status::Exited(5), 0x10030, 0)),
            Act::ReplaceInput(4, b"abcd"),
            Act::Ask(5000, (14880, Status::Exited(4), 0x10030, 0)),
            Act::ReplaceInput(3, b"abc"),
            Act::Ask(5000, (18856, Status::Exited(3), 0x10030, 0)),
        ],
    ),
];

#[test]
fn bytes_at_the_end_cost_what_follows_them(rt: HostRuntime) {
    assert_performed(&rt, rt.alloc(), &BYTES);
}
