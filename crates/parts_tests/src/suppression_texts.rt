//! Texts and arguments of suppressions, and the results of reading them.
use crate::holds;
use error_events::{Kind, Parameter, ParameterFault};
use leak_graph::LeakKind;
use std::alloc::Global;
use suppressions::{SuppFault, Suppression, TEXT_LIMIT, Target, is_suppressed, parse};

/// Returns the line of a fault, or 0 for another fault.
fn line_of(fault: SuppFault) -> u32 {
    match fault {
        SuppFault::BadSuppression(line) => line,
        _ => 0,
    }
}

/// Returns the number of suppressions of a text, or the line at which it is rejected.
fn count_of(alloc: Global, text: &str) -> Result<usize, u32> {
    if text.len() > TEXT_LIMIT {
        return Err(0);
    }
    match parse(alloc, text.as_bytes()) {
        Ok(list) => Ok(list.len()),
        Err(fault) => Err(line_of(fault)),
    }
}

/// Texts, and the number of suppressions of each, or the line at which it is rejected.
const TEXTS: [(&str, Result<usize, u32>); 12] = [
    ("{\nn\nMemcheck:Cond\nfun:a\n", Err(1)),
    ("}\n", Err(1)),
    ("{\n}\n", Err(2)),
    ("{\nn\nCond\nfun:a\n}\n", Err(3)),
    ("{\nn\nMemcheck:Cond\nfoo:a\n}\n", Err(4)),
    (
        "{\nn\nMemcheck:Leak\nmatch-leak-kinds: definite,huge\n}\n",
        Err(4),
    ),
    ("{\nn\nMemcheck:Cond\nfoo:a\n", Err(1)),
    ("\n# c\n{\nn\nMemcheck:Param\n}\n", Err(6)),
    ("{\nn\nHelgrind:Race\nany words\n}\n", Ok(1)),
    ("# c\n", Ok(0)),
    ("", Ok(0)),
    (
        " {\t\r\nn\n Helgrind,Memcheck:Cond \n# c\n\n  fun:a \n}\n{\nm\nMemcheck:Leak\n}",
        Ok(2),
    ),
];

#[test]
fn texts(rt: HostRuntime) {
    for (text, want) in &TEXTS {
        holds(&rt, text, count_of(rt.alloc(), text) == *want);
    }
}

const COND: Target = Target::Error(Kind::Cond);

const READS: Target = Target::Error(Kind::Param(Parameter::ReadBuffer, ParameterFault::Uninit));

const LOST: Target = Target::Leak(LeakKind::Definite);

/// Arguments, and whether their suppression, which is on, matches a target in `max`, called by `main`, or the line at which they are
/// rejected.
const WORDS: [(&str, Target, Result<bool, u32>); 16] = [
    ("Cond fun:ma*", COND, Ok(true)),
    ("Cond fun:main", COND, Ok(false)),
    ("Cond ... fun:main", COND, Ok(true)),
    ("Cond ... fun:m?x", COND, Ok(true)),
    ("Cond obj:g*t obj:?????", COND, Ok(true)),
    ("Cond src:a", COND, Ok(false)),
    ("Cond", COND, Ok(true)),
    ("Value4 fun:*", COND, Ok(false)),
    ("Param read(buf) fun:max", READS, Ok(true)),
    ("Param read(fd)", READS, Ok(false)),
    ("Leak match-leak-kinds:none,all", LOST, Ok(true)),
    ("Leak match-leak-kinds:possible", LOST, Ok(false)),
    ("Foo fun:a", COND, Err(1)),
    ("Param", COND, Err(1)),
    ("Cond fun", COND, Err(1)),
    ("Leak match-leak-kinds:definite,", COND, Err(1)),
];

/// The names of the functions of a trace.
const NAMES: [&[u8]; 2] = [b"max", b"main"];

/// Returns whether the suppression of some arguments is on and matches, or the line at which they are rejected.
fn matched(alloc: Global, words: &str, target: &Target, names: &[&[u8]]) -> Result<bool, u32> {
    match Suppression::from_words(alloc, words.as_bytes()) {
        Ok(suppression) if suppression.is_on() => Ok(suppression.matches(target, names)),
        Ok(_) => Err(0),
        Err(fault) => Err(line_of(fault)),
    }
}

/// Arguments, and whether their suppression matches in a recursion of 200 names: `max`, 198 times `walk`, and `main`.
const DEEP: [(&str, bool); 3] = [
    ("Cond fun:max ... fun:ma?n", true),
    ("Cond fun:max ... fun:main obj:*", false),
    ("Cond ... fun:walk ... fun:max", false),
];

#[test]
fn words(rt: HostRuntime) {
    for (words, target, want) in &WORDS {
        let is_matched = matched(rt.alloc(), words, target, &NAMES);
        holds(&rt, words, is_matched == *want);
    }
}

#[test]
fn words_in_a_recursion(rt: HostRuntime) {
    let mut names: [&[u8]; 200] = [b"walk"; 200];
    names[0] = b"max";
    names[199] = b"main";
    for (words, want) in &DEEP {
        let is_matched = matched(rt.alloc(), words, &COND, &names);
        holds(&rt, words, is_matched == Ok(*want));
    }
}

/// A block of another tool.
const OTHERS: &[u8] = b"{\nn\nHelgrind:Jump\nfun:max\n}\n";

/// Blocks for jumps and for conditions.
const TWO: &[u8] = b"{\nn\nMemcheck:Jump\nfun:max\n}\n{\nm\nMemcheck:Cond\nfun:max\n}\n";

const JUMP: Target = Target::Error(Kind::Jump);

const FREE: Target = Target::Error(Kind::Free);

/// A label; blocks, whether the last one stays on, a target, and whether they suppress it in `max`.
const LISTS: [(&str, &[u8], bool, Target, bool); 5] = [
    (
        "another tool's block matches nothing",
        OTHERS,
        true,
        JUMP,
        false,
    ),
    ("a condition", TWO, true, COND, true),
    ("another kind", TWO, true, FREE, false),
    ("switched off", TWO, false, COND, false),
    ("a jump beside that", TWO, false, JUMP, true),
];

/// Returns whether blocks, of which the last one is on or not, suppress an error; `None` if they are rejected.
fn suppressed(alloc: Global, blocks: &[u8], is_on: bool, target: &Target) -> Option<bool> {
    if blocks.len() > TEXT_LIMIT {
        return None;
    }
    match parse(alloc, blocks) {
        Ok(mut list) => {
            if !is_on && let Some(last) = list.last_mut() {
                last.switch(false);
            }
            Some(is_suppressed(&list, target, &NAMES))
        }
        Err(_) => None,
    }
}

#[test]
fn lists(rt: HostRuntime) {
    for (label, blocks, is_on, target, want) in &LISTS {
        let is_matched = suppressed(rt.alloc(), blocks, *is_on, target);
        holds(&rt, label, is_matched == Some(*want));
    }
}
