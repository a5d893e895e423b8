//! The texts of replies.
ghost use Rattle.std.specs.Prelude.{◌≡◌, ◌≤◌, length, vec_capacity};
ghost use Rattle.replay_session.specs.Replies.{number_line, short_text};

use crate::reply::Reply;
use crate::session::Session;
use commands::{Command, Fault};
use itoa::Buffer;
use std::alloc::{AllocError, Global};

/// The room for the longest reply that isn't a report.
const SHORT: usize = 64;

const DONE: &[u8] = b"ok\n";

const WORKED: &[u8] = b"worked ";

const REFUSED: &[u8] = b"refused ";

/// The texts of a session's replies: the bytes of a report, and those of any other reply, whose room is allocated once. So memory can run
/// out only for the text of a report.
#[derive(Drop)]
pub struct Texts {
    report: Vec<u8>,
    short: Vec<u8>,
    outcome: Result<Reply, Fault>,
    ghost roomy: { 64 ≤ vec_capacity short },
    ghost written: { short.items ≡ short_text outcome },
}

/// Writes a word, a number and a newline into a text that has room for them.
fn put_number(text: &mut Vec<u8>, word: &[u8], n: u64)
    requires roomy { 64 ≤ vec_capacity text.old }
    requires few { length word.now ≤ 20 }
    ensures text { text.new.items ≡ number_line word.now n }
    ensures roomy { 64 ≤ vec_capacity text.new }
{
    let mut buffer = Buffer::new();
    let digits = buffer.format(n).as_bytes();
    text.clear();
    let Ok(()) = text.extend_from_slice(word) else {
        unreachable!()
    };
    let Ok(()) = text.extend_from_slice(digits) else {
        unreachable!()
    };
    let Ok(()) = text.push(b'\n') else {
        unreachable!()
    };
}

/// Writes a reply that isn't a report into a text that has room for it.
fn put_short(text: &mut Vec<u8>, outcome: Result<Reply, Fault>)
    requires { 64 ≤ vec_capacity text.old }
    ensures text { text.new.items ≡ short_text outcome }
    ensures roomy { 64 ≤ vec_capacity text.new }
{
    match outcome {
        Ok(Reply::Done) => {
            text.clear();
            let Ok(()) = text.extend_from_slice(DONE) else {
                unreachable!()
            };
        }
        Ok(Reply::Work(steps)) => put_number(text, WORKED, steps),
        Ok(Reply::Report) => text.clear(),
        Err(fault) => put_number(text, REFUSED, u64::from(fault.number())),
    }
}

impl Texts {
    ghost use Rattle.std.specs.Prelude.{◌≡◌};
    ghost use Rattle.replay_session.specs.Replies.{text_of, Replies, RepliesAs};
    ghost use Rattle.replay_session.specs.Session.{turn_of};
    ghost use Rattle.replay_session.specs.Stages.{stage_of};
    ghost use Rattle.replay_session.specs.Texts.{last_text, report_in};
    ghost use Rattle.replay_session.specs.Turns.{accepted_as};

    /// Returns texts with an empty report and room for other replies.
    pub fn new(alloc: Global) -> Result<Self, AllocError> {
        Ok(Texts {
            report: Vec::new(alloc),
            short: Vec::with_capacity(alloc, SHORT)?,
            outcome: Ok(Reply::Report),
        })
    }

    /// Stores a reply: its text, or that it is the report.
    #[tactic(auto, unfolding(crate::specs::Texts::last_text, crate::specs::Texts::report_in))]
    pub fn put(&mut self, outcome: Result<Reply, Fault>)
        ensures text { last_text self.new ≡ text_of outcome (report_in self.old) }
        ensures report { report_in self.new ≡ report_in self.old }
    {
        put_short(&mut self.short, outcome);
        self.outcome = outcome;
    }

    /// Answers a line of a session, and stores the reply.
    #[tactic(auto, unfolding(crate::specs::Texts::last_text, crate::specs::Texts::report_in))]
    pub fn answer(&mut self, session: &mut Session<'_>, line: &[u8])
        ensures { Replies (stage_of session.old) line.now (last_text self.new) (stage_of session.new) }
    {
        self.report.clear();
        let outcome = session.command(line, &mut self.report);
        self.put(outcome);
    }

    /// Answers a line that the caller has read, as a command or as why it is none, and stores the reply.
    #[tactic(auto, unfolding(crate::specs::Texts::last_text, crate::specs::Texts::report_in))]
    pub fn answer_as(
        &mut self,
        session: &mut Session<'_>,
        line: &[u8],
        read: Result<Command, Fault>,
    )
        ensures { RepliesAs (stage_of session.old) (accepted_as (turn_of session.old) line.now read) (last_text self.new) (stage_of session.new) }
    {
        let text = &mut self.report;
        text.clear();
        let reply = session.command_as(line, read, text);
        self.put(reply);
    }

    /// Returns the text of the reply that was stored last.
    #[tactic(auto, unfolding(crate::specs::Texts::last_text))]
    pub fn text(&self) -> &[u8]
        ensures { result.now ≡ last_text self.now }
    {
        match self.outcome {
            Ok(Reply::Report) => &self.report,
            Ok(Reply::Done) | Ok(Reply::Work(_)) | Err(_) => &self.short,
        }
    }
}
