//! Runs that are altered just before a step, and patches of words that are written in this way. The numbers of steps executed follow as
//! those of edits do.

use crate::trails::{Act, Case, ENDS, Program, RUNS, assert_performed};

const ALTERED: [Case; 1] = [
    // The word that is read in step 1201 is written before step 60: with 0, so that a patch of it doesn't show at step 3000, and with 1.
    (
        "a word that is written and patched",
        Program::ReadsOn,
        &[
            Act::AskUnmarked(3000, (3000, RUNS, 0x1000C, 0)),
            Act::Write(60, 0x10654, 0),
            Act::Ask(3000, (6000, RUNS, 0x1000C, 0)),
            Act::PatchWritten(0x10654, 1),
            Act::Ask(3000, (9000, RUNS, 0x1000C, 0)),
            Act::Write(1100, 0x10654, 1),
            Act::Ask(3000, (10976, ENDS, 0x10010, 0)),
            Act::PatchWritten(0x10654, 0),
            Act::Ask(3000, (13976, ENDS, 0x10010, 0)),
        ],
    ),
];

#[test]
fn written_words_are_patched(rt: HostRuntime) {
    assert_performed(&rt, rt.alloc(), &ALTERED);
}
