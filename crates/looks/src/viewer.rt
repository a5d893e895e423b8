//! A session that gets one line after another, some of which look at its run.
ghost use Rattle.std.specs.Prelude.{◌≡◌, [], None, OnOk, true};
ghost use Rattle.checkpoints.specs.Trails.{is_short};
ghost use Rattle.replay_session.specs.Session.{scenario_of, trail_of, turn_of};
ghost use Rattle.scenario.specs.Scenario.{limit_of};
ghost use Rattle.replay_session.specs.Work.{work_on};
ghost use Rattle.look_lines.specs.Looks.{look_refusal};
ghost use Rattle.looks.specs.Views.{giving, LookMoves, looks, marking, Tells};

use commands::{Command, Edit};
use line_protocol::{LONGEST_LINE, Listener};
use look_lines::{
    Look, MOST_HAPPENED, alteration_asked, alters, asked, edit_asked, gives, push_blocks,
    push_calls, push_controls, push_input, push_memory, push_output, push_registers, push_sides,
    push_stack, push_step,
};
use replay_session::{Fault, Session, Texts};
use run_values::Alteration;
use std::alloc::AllocError;

/// Returns the command of a line that alters.
fn marking(asked: Result<Alteration, Fault>) -> Result<Command, Fault>
    ensures { result ≡ marking asked }
{
    let alteration = asked?;
    Ok(Command::Edit(Edit::Mark(alteration)))
}

/// Returns the command of a line that gives the input bytes.
fn giving(asked: Result<Edit, Fault>) -> Result<Command, Fault>
    ensures { result ≡ giving asked }
{
    let edit = asked?;
    Ok(Command::Edit(edit))
}

/// Writes the reply to a look into an empty text.
fn show(session: &mut Session<'_>, look: Look, text: &mut Vec<u8>) -> Result<(), AllocError>
    requires taken { look_refusal (limit_of (scenario_of session.old)) look ≡ None }
    requires empty { text.old.items ≡ [] }
    ensures tells { OnOk result (Tells (scenario_of session.old) look text.new.items) }
    ensures turn { turn_of session.new ≡ turn_of session.old }
    ensures work { OnOk result (LookMoves look (scenario_of session.old).step (work_on (trail_of session.old)) (work_on (trail_of session.new))) }
    ensures short { is_short (trail_of session.new) ≡ is_short (trail_of session.old) }
{
    match look {
        Look::Registers => {
            let machine = session.machine()?;
            push_registers(text, &machine)
        }
        Look::Controls => {
            let machine = session.machine()?;
            push_controls(text, &machine)
        }
        Look::Memory(range) => {
            let machine = session.machine()?;
            push_memory(text, &machine, range)
        }
        Look::Output(range) => {
            let bytes = session.output(range)?;
            push_output(text, &bytes)
        }
        Look::Sides(range) => {
            let table = session.sides(range)?;
            push_sides(text, &table)
        }
        Look::Input => {
            let len = session.input_len();
            let machine = session.machine()?;
            push_input(text, &machine, len)
        }
        Look::Next(search) => {
            let found = session.next(search.sought, search.bound)?;
            push_step(text, found)
        }
        Look::Last(search) => {
            let found = session.last(search.sought, search.bound)?;
            push_step(text, found)
        }
        Look::Certify => session.certify(text),
        Look::Stack => {
            let machine = session.machine()?;
            push_stack(text, &machine)
        }
        Look::Blocks(from) => {
            let machine = session.machine()?;
            push_blocks(text, &machine, from)
        }
        Look::Calls(stretch) => {
            let found = session.happened(stretch.from, stretch.end, MOST_HAPPENED)?;
            push_calls(text, &found)
        }
    }
}

/// A session, the texts of its replies, and what a look showed.
#[derive(Drop)]
pub struct Viewer<'a> {
    /// The session.
    pub session: Session<'a>,
    texts: Texts,
    shown: Vec<u8>,
    /// Whether the last reply is that to a look.
    is_shown: bool,
}

impl<'a> Viewer<'a> {
    ghost use Rattle.std.specs.Prelude.{◌≡◌, IfOk, None, Ok};
    ghost use Rattle.replay_session.specs.Replies.{refused_line};
    ghost use Rattle.replay_session.specs.Session.{turn_of};
    ghost use Rattle.replay_session.specs.Stages.{stage_of};
    ghost use Rattle.look_lines.specs.Alterations.{alteration_asked};
    ghost use Rattle.look_lines.specs.Inputs.{edit_asked};
    ghost use Rattle.look_lines.specs.Looks.{asked, look_refusal};
    ghost use Rattle.looks.specs.Views.{Looked, RepliesRead, reply_of};

    /// Returns a viewer of a session.
    pub fn new(session: Session<'a>) -> Result<Self, AllocError>
        ensures { IfOk result (λ viewer. viewer.session ≡ session.entry) }
    {
        let alloc = session.allocator();
        let texts = Texts::new(alloc)?;
        Ok(Viewer {
            session,
            texts,
            shown: Vec::new(alloc),
            is_shown: false,
        })
    }

    /// Returns whether a line looks at the run.
    #[tactic(auto, unfolding(crate::specs::Views::looks))]
    pub fn looks(&self, line: &[u8]) -> bool
        ensures { result ≡ looks (turn_of self.now.session) line.now }
    {
        line.starts_with(b"look ") && !self.session.is_over() && line.len() <= LONGEST_LINE
    }

    /// Replies why a line is rejected.
    #[tactic(auto, unfolding(crate::specs::Views::reply_of))]
    pub fn refuse(&mut self, fault: Fault)
        ensures reply { reply_of self.new ≡ refused_line fault }
        ensures session { self.new.session ≡ self.old.session }
    {
        self.texts.put(Err(fault));
        self.is_shown = false;
    }

    /// Replies to a look.
    #[tactic(auto, unfolding(crate::specs::Views::reply_of))]
    fn show(&mut self, look: Look)
        requires { look_refusal (limit_of (scenario_of self.old.session)) look ≡ None }
        ensures { Looked (stage_of self.old.session) (Ok look) (reply_of self.new) (stage_of self.new.session) }
    {
        self.shown.clear();
        match show(&mut self.session, look, &mut self.shown) {
            Ok(()) => self.is_shown = true,
            Err(_) => self.refuse(Fault::Memory),
        }
    }

    /// Answers a line that looks.
    fn look(&mut self, line: &[u8])
        ensures { Looked (stage_of self.old.session) (asked (limit_of (scenario_of self.old.session)) line.now) (reply_of self.new) (stage_of self.new.session) }
    {
        match asked(self.session.limit(), line) {
            Ok(look) => self.show(look),
            Err(fault) => self.refuse(fault),
        }
    }

    /// Answers a line that alters the machine at a step: as a session answers an edit.
    #[tactic(auto, unfolding(crate::specs::Views::reply_of))]
    fn alter(&mut self, line: &[u8])
        ensures { RepliesRead self.old.session line.now (marking (alteration_asked (limit_of (scenario_of self.old.session)) line.now)) (reply_of self.new) self.new.session }
    {
        let asked = alteration_asked(self.session.limit(), line);
        self.texts
            .answer_as(&mut self.session, line, marking(asked));
        self.is_shown = false;
    }

    /// Answers a line that the caller has read, as an edit or as why it is none: as a session answers an edit.
    #[tactic(auto, unfolding(crate::specs::Views::reply_of))]
    pub fn answer_as(&mut self, line: &[u8], read: Result<Edit, Fault>)
        ensures { RepliesRead self.old.session line.now (giving read) (reply_of self.new) self.new.session }
    {
        self.texts.answer_as(&mut self.session, line, giving(read));
        self.is_shown = false;
    }

    /// Answers a line that gives the input bytes.
    fn give(&mut self, line: &[u8])
        ensures { RepliesRead self.old.session line.now (giving (edit_asked line.now)) (reply_of self.new) self.new.session }
    {
        let read = edit_asked(self.session.allocator(), line, self.session.input_len());
        self.answer_as(line, read);
    }
}

impl Listener for Viewer<'_> {
    ghost use Rattle.replay_session.specs.Replies.{is_over};
    ghost use Rattle.replay_session.specs.Session.{turn_of};
    ghost use Rattle.replay_session.specs.Stages.{stage_of};
    ghost use Rattle.looks.specs.LongLines.{long_alike};
    ghost use Rattle.looks.specs.Views.{Views, reply_of};

    ghost answers = { λ old line new. Views (stage_of old.session) line (reply_of new) (stage_of new.session) };

    ghost reply = { reply_of };

    ghost over = { λ viewer. is_over (turn_of viewer.session) };

    fn is_over(&self) -> bool {
        self.session.is_over()
    }

    #[tactic(auto, unfolding(crate::specs::Views::reply_of))]
    fn answer(&mut self, line: &[u8]) {
        if self.looks(line) {
            self.look(line);
        } else if alters(line) {
            self.alter(line);
        } else if gives(line) {
            self.give(line);
        } else {
            self.texts.answer(&mut self.session, line);
            self.is_shown = false;
        }
    }

    #[tactic(auto, unfolding(crate::specs::Views::reply_of))]
    fn reply(&self) -> &[u8] {
        if self.is_shown {
            &self.shown
        } else {
            self.texts.text()
        }
    }

    ghost long_alike = { λ old new a b longer longer' views.
        long_alike (stage_of old.session) (stage_of new.session) a b (reply_of new) longer longer' views };
}
