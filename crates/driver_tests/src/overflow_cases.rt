//! Where `exec` ends a run: where its stack overflows, and where stacks of other sorts don't.
use crate::exec_cases::{Ask, Case, Said, assert_executed};

/// Calls itself, with a frame of 2,048 bytes of which one word is written.
const RECURSES: [u32; 3] = [0x8001_0113, 0x0011_2023, 0xFF9F_F0EF];

/// Puts 0x7e000000 into the stack pointer, and counts.
const FALLS: [u32; 3] = [0x7E00_0137, 0x0015_0513, 0xFFDF_F06F];

/// Calls itself, with a frame of 64 bytes of which one word is written.
const GROWS: [u32; 3] = [0xFC01_0113, 0x0011_2023, 0xFF9F_F0EF];

const STACKS: [Case; 5] = [
    Case {
        label: "a recursion without an end, whatever statuses were chosen",
        words: &RECURSES,
        asks: &[Ask::Step(140_000), Ask::ErrorStatus(99), Ask::IdleStatus(3)],
        status: 139,
        output: b"",
        error: b"",
        report: b"step 65536\nstate running 0x00010004\n",
        said: Said::Front(
            b"replaycheck exec: Stack overflow in thread #1: can't grow stack to 0x7d554ff0\n",
        ),
    },
    Case {
        label: "an overflow, after which the program exits before it is looked at",
        words: &[0x7E00_0137, 0x05D0_0893, 0x0050_0513, 0x0000_0073],
        asks: &[Ask::Step(140_000)],
        status: 5,
        output: b"",
        error: b"",
        report: b"",
        said: Said::All(b""),
    },
    Case {
        label: "an overflow, and then a jump to itself",
        words: &[0x7E00_0137, 0x0000_006F],
        asks: &[Ask::Step(140_000)],
        status: 139,
        output: b"",
        error: b"",
        report: b"",
        said: Said::Front(
            b"replaycheck exec: Stack overflow in thread #1: can't grow stack to 0x7e000000\n",
        ),
    },
    Case {
        label: "an overflow after the input is read",
        words: &[
            0x0000_0513,
            0x0001_0593,
            0x0010_0613,
            0x03F0_0893,
            0x0000_0073,
            0x7E00_0137,
            0x0015_0513,
            0xFFDF_F06F,
        ],
        asks: &[Ask::Step(140_000), Ask::Input(b"x")],
        status: 139,
        output: b"",
        error: b"",
        report: b"",
        said: Said::Front(
            b"replaycheck exec: Stack overflow in thread #1: can't grow stack to 0x7e000000\n",
        ),
    },
    Case {
        label: "an overflow at the chosen step",
        words: &FALLS,
        asks: &[Ask::Step(65_536)],
        status: 139,
        output: b"",
        error: b"",
        report: b"",
        said: Said::Front(
            b"replaycheck exec: Stack overflow in thread #1: can't grow stack to 0x7e000000\n",
        ),
    },
];

#[test]
fn stacks_overflow(rt: HostRuntime) {
    assert_executed(&rt, rt.alloc(), &STACKS);
}

const POINTERS: [Case; 4] = [
    Case {
        label: "a pointer with undefined bits",
        words: &[
            0xFC01_0113,
            0x0001_2283,
            0x7E00_0137,
            0x0051_6133,
            0x0015_0513,
            0xFFDF_F06F,
        ],
        asks: &[Ask::Step(140_000)],
        status: 124,
        output: b"",
        error: b"",
        report: b"",
        said: Said::Front(b"replaycheck exec: still running at step 140000\n"),
    },
    Case {
        label: "a pointer that is more than 64 MiB below",
        words: &[0x7AFF_F137, 0x0015_0513, 0xFFDF_F06F],
        asks: &[Ask::Step(140_000)],
        status: 124,
        output: b"",
        error: b"",
        report: b"",
        said: Said::Front(b"replaycheck exec: still running at step 140000\n"),
    },
    Case {
        label: "a pointer that is 64 MiB below",
        words: &[0x7B00_0137, 0x0015_0513, 0xFFDF_F06F],
        asks: &[Ask::Step(140_000)],
        status: 139,
        output: b"",
        error: b"",
        report: b"",
        said: Said::Front(
            b"replaycheck exec: Stack overflow in thread #1: can't grow stack to 0x7b000000\n",
        ),
    },
    Case {
        label: "a step before the first look",
        words: &FALLS,
        asks: &[Ask::Step(65_535)],
        status: 124,
        output: b"",
        error: b"",
        report: b"",
        said: Said::Front(b"replaycheck exec: still running at step 65535\n"),
    },
];

#[test]
fn pointers_are_judged(rt: HostRuntime) {
    assert_executed(&rt, rt.alloc(), &POINTERS);
}

const OWN_STACKS: [Case; 4] = [
    Case {
        label: "a stack in what the program loads",
        words: &[0x0000_0117, 0x0015_0513, 0xFFDF_F06F],
        asks: &[Ask::Step(140_000), Ask::Stack("0x20000..0x30000")],
        status: 124,
        output: b"",
        error: b"",
        report: b"",
        said: Said::Front(b"replaycheck exec: still running at step 140000\n"),
    },
    Case {
        label: "a stack after what the program loads",
        words: &[0x0000_0117, 0x7F01_0113, 0x0015_0513, 0xFFDF_F06F],
        asks: &[Ask::Step(140_000), Ask::Stack("0x20000..0x30000")],
        status: 139,
        output: b"",
        error: b"",
        report: b"",
        said: Said::Front(
            b"replaycheck exec: Stack overflow in thread #1: can't grow stack to 0x000107f0\n",
        ),
    },
    Case {
        label: "a stack in the heap's region",
        words: &[0x2F00_0137, 0x0015_0513, 0xFFDF_F06F],
        asks: &[
            Ask::Step(140_000),
            Ask::Heap("0x10000000"),
            Ask::Stack("0x31000000..0x32000000"),
        ],
        status: 124,
        output: b"",
        error: b"",
        report: b"",
        said: Said::Front(b"replaycheck exec: still running at step 140000\n"),
    },
    Case {
        label: "a jump to itself for as many steps as there are",
        words: &[0x0000_006F],
        asks: &[Ask::Step(4_294_967_295)],
        status: 124,
        output: b"",
        error: b"",
        report: b"",
        said: Said::Front(b"replaycheck exec: in a jump to itself"),
    },
];

#[test]
fn other_stacks_go_on(rt: HostRuntime) {
    assert_executed(&rt, rt.alloc(), &OWN_STACKS);
}

const LIMITS: [Case; 4] = [
    Case {
        label: "more memory than there may be",
        words: &GROWS,
        asks: &[
            Ask::Step(140_000),
            Ask::Memory(1),
            Ask::ErrorStatus(99),
            Ask::Report,
        ],
        status: 122,
        output: b"",
        error: b"",
        report: b"step 65536\nstate running 0x00010004\n",
        said: Said::Front(
            b"replaycheck exec: more than 1 MiB of memory are needed at step 65536 (--memory-limit)\n",
        ),
    },
    Case {
        label: "no limit",
        words: &GROWS,
        asks: &[Ask::Step(140_000), Ask::Memory(0)],
        status: 124,
        output: b"",
        error: b"",
        report: b"",
        said: Said::Front(b"replaycheck exec: still running at step 140000\n"),
    },
    Case {
        label: "less memory than there may be",
        words: &FALLS,
        asks: &[Ask::Step(65_535), Ask::Memory(1)],
        status: 124,
        output: b"",
        error: b"",
        report: b"",
        said: Said::Front(b"replaycheck exec: still running at step 65535\n"),
    },
    Case {
        label: "an overflow before more memory than there may be",
        words: &RECURSES,
        asks: &[Ask::Step(140_000), Ask::Memory(1)],
        status: 139,
        output: b"",
        error: b"",
        report: b"step 65536\nstate running 0x00010004\n",
        said: Said::Front(
            b"replaycheck exec: Stack overflow in thread #1: can't grow stack to 0x7d554ff0\n",
        ),
    },
];

#[test]
fn memory_is_limited(rt: HostRuntime) {
    assert_executed(&rt, rt.alloc(), &LIMITS);
}
