//! What `exec` writes to standard output and to standard error, and which calls it says aren't known.
use crate::exec_cases::{Ask, Case, Said, assert_executed};

/// Writes `a` to descriptor 1, `b` to 2, `c` to 1 and `c` to 2, and exits with status 0. The first write to 2 is in step 9.
const BOTH: [u32; 18] = [
    0x0000_0597,
    0x0445_8593,
    0x0010_0613,
    0x0400_0893,
    0x0010_0513,
    0x0000_0073,
    0x0015_8593,
    0x0020_0513,
    0x0000_0073,
    0x0015_8593,
    0x0010_0513,
    0x0000_0073,
    0x0020_0513,
    0x0000_0073,
    0x05D0_0893,
    0x0000_0513,
    0x0000_0073,
    0x2163_6261,
];

/// Makes call 500 twice and call 501 once, and exits with status 0.
const UNKNOWN: [u32; 8] = [
    0x1F40_0893,
    0x0000_0073,
    0x0000_0073,
    0x1F50_0893,
    0x0000_0073,
    0x05D0_0893,
    0x0000_0513,
    0x0000_0073,
];

const STREAMS: [Case; 9] = [
    Case {
        label: "each descriptor has its stream",
        words: &BOTH,
        asks: &[],
        status: 0,
        output: b"ac",
        error: b"bc",
        report: b"",
        said: Said::All(b""),
    },
    Case {
        label: "standard output that can't be written in the middle",
        words: &BOTH,
        asks: &[Ask::OutputRoom(1)],
        status: 125,
        output: b"a",
        error: b"b",
        report: b"",
        said: Said::All(b"replaycheck: cannot write\n"),
    },
    Case {
        label: "standard error that can't be written in the middle",
        words: &BOTH,
        asks: &[Ask::ErrorRoom(1)],
        status: 125,
        output: b"ac",
        error: b"b",
        report: b"",
        said: Said::All(b"replaycheck: cannot write\n"),
    },
    Case {
        label: "a report after an open line",
        words: &BOTH,
        asks: &[Ask::Report],
        status: 0,
        output: b"ac",
        error: b"bc\n",
        report: b"step 1000\nstate exited 0\n",
        said: Said::Front(b""),
    },
    Case {
        label: "a report in a file after an open line",
        words: &BOTH,
        asks: &[Ask::Log],
        status: 0,
        output: b"ac",
        error: b"bc",
        report: b"step 1000\nstate exited 0\n",
        said: Said::Front(b""),
    },
    Case {
        label: "an open line that is ended before a report in a file",
        words: &BOTH,
        asks: &[Ask::Log, Ask::EndLine],
        status: 0,
        output: b"ac",
        error: b"bc\n",
        report: b"step 1000\nstate exited 0\n",
        said: Said::Front(b""),
    },
    Case {
        label: "a line of exec after an open line",
        words: &BOTH,
        asks: &[Ask::Step(10)],
        status: 124,
        output: b"a",
        error: b"b",
        report: b"",
        said: Said::All(b"\nreplaycheck exec: still running at step 10\n"),
    },
    Case {
        label: "a line of exec after a report that ended an open line",
        words: &BOTH,
        asks: &[Ask::Step(10), Ask::Report],
        status: 124,
        output: b"a",
        error: b"b\n",
        report: b"step 10\nstate running ",
        said: Said::Front(b""),
    },
    Case {
        label: "calls that aren't known",
        words: &UNKNOWN,
        asks: &[],
        status: 0,
        output: b"",
        error: b"",
        report: b"",
        said: Said::All(
            b"replaycheck: call 500 isn't known (2 times)\nreplaycheck: call 501 isn't known (1 time)\n",
        ),
    },
];

#[test]
fn descriptors_have_streams_of_their_own(rt: HostRuntime) {
    assert_executed(&rt, rt.alloc(), &STREAMS);
}
