//! A session, and one line of it.
ghost use Rattle.std.specs.Prelude.{◌≡◌, ◌≤◌};
ghost use Rattle.checkpoints.specs.Edits.{IsRightForRun};
ghost use Rattle.checkpoints.specs.OneProof.{right-prop};
ghost use Rattle.checkpoints.specs.Trails.{LoadsAs};
ghost use Rattle.scenario.specs.Scenario.{limit_of, run_of};

use crate::reply::Reply;
use crate::trying::{Compared, ForkPoint, Tried, compare_edit, try_edit};
use checkpoints::laws::keeps_lower;
use checkpoints::{Effect, Happened, Sides, Sought, Trail, spacing_for};
use clean_reports::{certify, push_verdict};
use commands::{BeginFault, Command, Edit, Fault, parse};
use guest_elf::Image;
use guest_machine::{Machine, Meter, Span};
use line_protocol::LONGEST_LINE;
use scenario::laws::edits_follow;
use scenario::{LONGEST_INPUT, MOST_STEPS, Scenario};
use std::alloc::{AllocError, Global};
use suppressions::Suppression;

/// The number of lines that are answered.
const MOST_LINES: u32 = 100_000;

/// The scenario that the accepted lines leave, the held machines of its run, and the number of lines that were given.
#[derive(Drop)]
pub struct Session<'a> {
    alloc: Global,
    scenario: Scenario<'a>,
    trail: Trail,
    ghost loads: { LoadsAs trail scenario.image },
    ghost right: { IsRightForRun trail (run_of scenario) } by { right-prop trail (run_of scenario) },
    ghost near: { scenario.step ≤ limit_of scenario },
    lines: u32,
}

impl<'a> Session<'a> {
    ghost use Rattle.std.specs.Prelude.{◌≡◌, ◌<◌, ◌↔◌, false, true, IfOk, IfErr, IfNone, OnOk, OnErr, length, min, take};
    ghost use Rattle.checkpoints.specs.Effects.{IsOfSetup};
    ghost use Rattle.checkpoints.specs.Forks.{IsForkFor};
    ghost use Rattle.checkpoints.specs.Outputs.{part};
    ghost use Rattle.checkpoints.specs.Searches.{IsLast, IsNext};
    ghost use Rattle.checkpoints.specs.Trails.{is_short};
    ghost use Rattle.checkpoints.specs.Work.{ForkMoves, ReportMoves, reached};
    ghost use Rattle.replay_report.specs.Report.{AppendsReport};
    ghost use Rattle.scenario.specs.Edits.{row, IsTaken};
    ghost use Rattle.scenario.specs.Limits.{furthest_step, longest_input};
    ghost use Rattle.guest_machine.specs.Shows.{Shows};
    ghost use Rattle.checkpoints.specs.Work.{spacing_for};
    ghost use Rattle.scenario.specs.Scenario.{IsReportOf, chosen_state, limit_of};
    ghost use Rattle.commands.specs.Commands.{Reads};
    ghost use Rattle.replay_session.specs.Replies.{is_over};
    ghost use Rattle.replay_session.specs.Session.{Carried, Finds, happened_of, IsSidesOf, IsVerdictOf, Meets, MeetsAs, scenario_of, turn_of, trail_of, work_of};
    ghost use Rattle.replay_session.specs.Trying.{GivesInput, IsCompared, IsForkPoint, IsTried};
    ghost use Rattle.replay_session.specs.Turns.{accepted, accepted_as, changed, command_refusal, counted, if_command, line_refusal, opening, opening_within, passed};
    ghost use Rattle.replay_session.specs.Work.{MayShorten, MovesWork, Works, WorksAs, WorksLine, work_on, no_work};

    /// Returns the session of a program with an input and suppressions, without edits and with step 0 chosen. A failure drops the
    /// arguments. An input that is too large is reported before a failed allocation.
    #[tactic(auto, unfolding(crate::specs::Session::turn_of, crate::specs::Session::trail_of))]
    pub fn begin(
        alloc: Global,
        image: Image<'a>,
        input: Vec<u8>,
        suppressions: Vec<Suppression>,
    ) -> Result<Self, BeginFault>
        ensures ok { IfOk result (λ session. turn_of session ≡ opening image.entry input.items suppressions.items) }
        ensures work { IfOk result (λ session. work_on (trail_of session) ≡ no_work 1024) }
        ensures whole { IfOk result (λ session. is_short (trail_of session) ≡ false) }
        ensures large { (result ≡ Err BeginFault.InputTooLarge) ↔ (longest_input < length input.items) }
    {
        Session::begin_within(alloc, image, input, suppressions, MOST_STEPS)
    }

    /// The same, with another greatest step that may be chosen or marked. The greater it is, the further apart machines are held.
    #[tactic(auto, unfolding(crate::specs::Session::turn_of, crate::specs::Session::trail_of))]
    pub fn begin_within(
        alloc: Global,
        image: Image<'a>,
        input: Vec<u8>,
        suppressions: Vec<Suppression>,
        limit: u32,
    ) -> Result<Self, BeginFault>
        requires { limit ≤ furthest_step }
        ensures ok { IfOk result (λ session. turn_of session ≡ opening_within limit image.entry input.items suppressions.items) }
        ensures work { IfOk result (λ session. work_on (trail_of session) ≡ no_work (spacing_for limit)) }
        ensures whole { IfOk result (λ session. is_short (trail_of session) ≡ false) }
        ensures large { (result ≡ Err BeginFault.InputTooLarge) ↔ (longest_input < length input.items) }
    {
        if input.len() > LONGEST_INPUT {
            return Err(BeginFault::InputTooLarge);
        }
        let trail = Trail::begin_apart(alloc, &image, spacing_for(limit))?;
        let scenario = Scenario::begin_within(alloc, image, input, suppressions, limit)?;
        Ok(Session {
            alloc,
            scenario,
            trail,
            lines: 0,
        })
    }

    /// Returns the held machines of the run, on whose meter each step counts that a report executes.
    #[tactic(auto, unfolding(crate::specs::Session::trail_of))]
    pub fn trail(&self) -> &Trail
        ensures { result.now ≡ trail_of self.now }
    {
        &self.trail
    }

    /// Returns the number of steps executed for its reports.
    #[tactic(auto, unfolding(crate::specs::Session::work_of))]
    fn work(&self) -> u64
        ensures { result ≡ work_of self.now }
    {
        self.trail.meter().read()
    }

    /// Returns the allocator of the session's memory.
    pub fn allocator(&self) -> Global {
        self.alloc
    }

    /// Returns whether the limit of lines is reached. The next line is answered by `refused 12`.
    #[tactic(auto, unfolding(crate::specs::Session::turn_of))]
    pub fn is_over(&self) -> bool
        ensures { result ≡ is_over (turn_of self.now) }
    {
        self.lines >= MOST_LINES
    }

    /// Returns why a command is rejected.
    #[tactic(auto, unfolding(crate::specs::Session::turn_of))]
    fn command_refusal(&self, command: &Command) -> Option<Fault>
        ensures { result ≡ command_refusal (scenario_of self.now) command.now }
    {
        match command {
            Command::Goto(step) => {
                if *step > self.scenario.limit() {
                    Some(Fault::StepLimit)
                } else {
                    None
                }
            }
            Command::Edit(edit) => Some(Fault::from(self.scenario.refusal(edit)?)),
            Command::Report | Command::Worked => None,
        }
    }

    /// Returns why a line is rejected before it is read.
    #[tactic(auto, unfolding(crate::specs::Turns::line_refusal, crate::specs::Session::turn_of))]
    fn line_refusal(&self, line: &[u8]) -> Option<Fault>
        ensures { result ≡ line_refusal (turn_of self.now) line.now }
    {
        if self.lines >= MOST_LINES {
            Some(Fault::TooManyCommands)
        } else if line.len() > LONGEST_LINE {
            Some(Fault::LineTooLong)
        } else {
            None
        }
    }

    /// Returns the command that a line was read as, or why it is rejected.
    fn judge(&self, read: Result<Command, Fault>) -> Result<Command, Fault>
        ensures judged { result ≡ if_command (scenario_of self.now) read }
        ensures taken { IfOk result (λ command. command_refusal (scenario_of self.now) command ≡ None) }
    {
        let command = read?;
        match self.command_refusal(&command) {
            Some(fault) => Err(fault),
            None => Ok(command),
        }
    }

    /// Returns the command that a line is, or why it is rejected.
    fn accept(&self, line: &[u8]) -> Result<Command, Fault>
        ensures accepted { Reads (accepted (turn_of self.now) line.now) result }
        ensures taken { IfOk result (λ command. command_refusal (scenario_of self.now) command ≡ None) }
    {
        match self.line_refusal(line) {
            Some(fault) => Err(fault),
            None => self.judge(parse(self.alloc, line)),
        }
    }

    /// Returns the command that a line is, which was read as this one, or why it is rejected.
    fn accept_as(&self, line: &[u8], read: Result<Command, Fault>) -> Result<Command, Fault>
        ensures accepted { result ≡ accepted_as (turn_of self.now) line.now read }
        ensures taken { IfOk result (λ command. command_refusal (scenario_of self.now) command ≡ None) }
    {
        match self.line_refusal(line) {
            Some(fault) => Err(fault),
            None => self.judge(read),
        }
    }

    /// Counts a line.
    #[tactic(auto, unfolding(crate::specs::Session::turn_of, crate::specs::Session::trail_of))]
    fn count(&mut self)
        ensures counted { turn_of self.new ≡ passed (turn_of self.old) (scenario_of self.old) }
        ensures scenario { scenario_of self.new ≡ scenario_of self.old }
        ensures trail { trail_of self.new ≡ trail_of self.old }
    {
        if self.lines < MOST_LINES {
            self.lines += 1;
        }
    }

    /// Chooses a step.
    #[tactic(auto, unfolding(crate::specs::Session::turn_of, crate::specs::Session::trail_of))]
    fn choose(&mut self, step: u32)
        requires { step ≤ limit_of (scenario_of self.old) }
        ensures turn { turn_of self.new ≡ record (turn_of self.old) { scenario = changed (turn_of self.old).scenario (Command.Goto step) } }
        ensures trail { trail_of self.new ≡ trail_of self.old }
    {
        self.scenario.choose(step);
    }

    /// Applies an edit that isn't rejected: the trail goes over to the edited run, by the edit's effect. If memory runs out for a new word
    /// in the held machines, the word is taken out of the scenario again.
    #[tactic(auto, unfolding(crate::specs::Session::turn_of, crate::specs::Session::trail_of))]
    fn edit(&mut self, edit: Edit) -> Result<(), Fault>
        requires { IsTaken (scenario_of self.old) edit }
        ensures ok { OnOk result (turn_of self.new ≡ record (turn_of self.old) { scenario = (row (scenario_of self.old) edit).after }) }
        ensures err { IfErr result (λ fault. (fault ≡ Fault.Memory) × ((row (scenario_of self.old) edit).may_fail ≡ true) × (turn_of self.new ≡ turn_of self.old)) }
        ensures whole { MayShorten (scenario_of self.old) (Ok (Command.Edit edit)) (is_short (trail_of self.old)) (is_short (trail_of self.new)) }
        ensures moves { OnOk result (is_short (trail_of self.new) ≡ false
            → MovesWork (scenario_of self.old) (Command.Edit edit) (work_on (trail_of self.old)) (work_on (trail_of self.new))) }
    {
        edits_follow();
        keeps_lower();
        let effect = self.scenario.effect(&edit);
        self.scenario.edit(edit)?;
        if self.trail.follow(effect).is_err() {
            self.scenario.drop_word();
            return Err(Fault::Memory);
        }
        Ok(())
    }

    /// Returns the machine at the chosen step. The trail is moved as by a report.
    #[tactic(auto, unfolding(crate::specs::Session::turn_of, crate::specs::Session::trail_of))]
    pub fn machine(&mut self) -> Result<Machine, AllocError>
        ensures turn { turn_of self.new ≡ turn_of self.old }
        ensures shows { IfOk result (λ machine. Shows machine (chosen_state (scenario_of self.old))) }
        ensures work { OnOk result (MovesWork (scenario_of self.old) Command.Report (work_on (trail_of self.old)) (work_on (trail_of self.new))) }
        ensures short { is_short (trail_of self.new) ≡ is_short (trail_of self.old) }
    {
        self.trail.at_altered(
            self.scenario.step(),
            self.scenario.setup(),
            self.scenario.marks(),
        )
    }

    /// Returns the first step that does what is sought, from the chosen one up to another, which isn't included. The trail is moved as by a
    /// report.
    #[tactic(auto, unfolding(crate::specs::Session::turn_of, crate::specs::Session::trail_of))]
    pub fn next(&mut self, sought: Sought, end: u32) -> Result<Option<u32>, AllocError>
        ensures turn { turn_of self.new ≡ turn_of self.old }
        ensures found { IfOk result (λ found. IsNext (Finds (scenario_of self.old) sought) (scenario_of self.old).step end found) }
        ensures work { OnOk result (MovesWork (scenario_of self.old) Command.Report (work_on (trail_of self.old)) (work_on (trail_of self.new))) }
        ensures short { is_short (trail_of self.new) ≡ is_short (trail_of self.old) }
    {
        self.trail.next(
            sought,
            self.scenario.step(),
            end,
            self.scenario.setup(),
            self.scenario.marks(),
            &mut Meter::new(),
        )
    }

    /// Returns the last step that does what is sought, from another one up to the chosen one, which isn't included. The trail is moved as
    /// by a report.
    #[tactic(auto, unfolding(crate::specs::Session::turn_of, crate::specs::Session::trail_of))]
    pub fn last(&mut self, sought: Sought, from: u32) -> Result<Option<u32>, AllocError>
        ensures turn { turn_of self.new ≡ turn_of self.old }
        ensures found { IfOk result (λ found. IsLast (Finds (scenario_of self.old) sought) from (scenario_of self.old).step found) }
        ensures work { OnOk result (MovesWork (scenario_of self.old) Command.Report (work_on (trail_of self.old)) (work_on (trail_of self.new))) }
        ensures short { is_short (trail_of self.new) ≡ is_short (trail_of self.old) }
    {
        self.trail.last(
            sought,
            from,
            self.scenario.step(),
            self.scenario.setup(),
            self.scenario.marks(),
            &mut Meter::new(),
        )
    }

    /// Returns the first `most` of what happens in the steps from one on, below another and below the chosen one. The trail is moved as by a
    /// report at the lesser of the latter two.
    #[tactic(auto, unfolding(crate::specs::Session::turn_of, crate::specs::Session::trail_of))]
    pub fn happened(
        &mut self,
        from: u32,
        end: u32,
        most: usize,
    ) -> Result<Vec<Happened>, AllocError>
        ensures turn { turn_of self.new ≡ turn_of self.old }
        ensures found { IfOk result (λ found. found.items ≡ take most (happened_of (scenario_of self.old) from end)) }
        ensures work { OnOk result (ReportMoves (min end (scenario_of self.old).step) (work_on (trail_of self.old)) (work_on (trail_of self.new))) }
        ensures short { is_short (trail_of self.new) ≡ is_short (trail_of self.old) }
    {
        let before = end.min(self.scenario.step());
        self.trail.happened(
            self.alloc,
            from,
            before,
            most,
            self.scenario.setup(),
            self.scenario.marks(),
        )
    }

    /// Returns the bytes of the output at the chosen step that are in a range of positions: those that there are. The trail is moved as by
    /// a report.
    #[tactic(auto, unfolding(crate::specs::Session::turn_of, crate::specs::Session::trail_of))]
    pub fn output(&mut self, range: Span) -> Result<Vec<u8>, AllocError>
        ensures turn { turn_of self.new ≡ turn_of self.old }
        ensures part { IfOk result (λ bytes. bytes.items ≡ part range (chosen_state (scenario_of self.old)).output) }
        ensures work { OnOk result (MovesWork (scenario_of self.old) Command.Report (work_on (trail_of self.old)) (work_on (trail_of self.new))) }
        ensures short { is_short (trail_of self.new) ≡ is_short (trail_of self.old) }
    {
        self.trail.output(
            self.alloc,
            range,
            self.scenario.step(),
            self.scenario.setup(),
            self.scenario.marks(),
        )
    }

    /// Returns what the run has done with the instruction at each place of a range, up to the chosen step. Nothing is moved.
    #[tactic(auto, unfolding(crate::specs::Session::turn_of))]
    pub fn sides(&self, places: Span) -> Result<Vec<Sides>, AllocError>
        ensures { IfOk result (λ table. IsSidesOf (scenario_of self.now) places table.items) }
    {
        self.trail.sides(
            self.alloc,
            places,
            self.scenario.step(),
            self.scenario.setup(),
            self.scenario.marks(),
        )
    }

    /// Returns the chosen step.
    #[tactic(auto, unfolding(crate::specs::Session::turn_of))]
    pub fn step(&self) -> u32
        ensures { result ≡ (scenario_of self.now).step }
    {
        self.scenario.step()
    }

    /// Returns the program.
    #[tactic(auto, unfolding(crate::specs::Session::turn_of))]
    pub fn image(&self) -> &Image<'a>
        ensures { result.now ≡ (scenario_of self.now).image }
    {
        self.scenario.image()
    }

    /// Returns where an edit shows in the run.
    #[tactic(auto, unfolding(crate::specs::Session::turn_of))]
    pub fn effect(&self, edit: &Edit) -> Effect
        ensures { result ≡ (row (scenario_of self.now) edit.now).effect }
    {
        self.scenario.effect(edit)
    }

    /// Returns a machine of the run up to the chosen step, before the last step at which an edit that changes only the setup doesn't show. The
    /// trail is moved as by a report at the next multiple of 1,024 above the chosen step.
    #[tactic(auto, unfolding(crate::specs::Session::turn_of, crate::specs::Session::trail_of))]
    pub fn fork_point(&mut self, effect: Effect, range: Span) -> Result<ForkPoint, AllocError>
        requires { IsOfSetup effect }
        ensures turn { turn_of self.new ≡ turn_of self.old }
        ensures short { is_short (trail_of self.new) ≡ is_short (trail_of self.old) }
        ensures fork_point { IfOk result (IsForkPoint (scenario_of self.old) effect range) }
        ensures work { OnOk result (ForkMoves (scenario_of self.old).step (work_on (trail_of self.old)) (work_on (trail_of self.new))) }
    {
        let step = self.scenario.step();
        let setup = self.scenario.setup();
        let marks = self.scenario.marks();
        let fork = self.trail.fork_of_setup(effect, step, setup, marks)?;
        let sides = self
            .trail
            .sides(self.alloc, range, fork.step, setup, marks)?;
        Ok(ForkPoint { fork, sides })
    }

    /// Returns what the run does with an edit that gives the input bytes, from a fork point for the edit. Nothing is changed.
    #[tactic(auto, unfolding(crate::specs::Session::turn_of, crate::specs::Session::trail_of))]
    pub fn try_edit(
        &mut self,
        edit: Edit,
        fork_point: &ForkPoint,
        range: Span,
    ) -> Result<Tried, AllocError>
        requires taken { IsTaken (scenario_of self.old) edit }
        requires input { GivesInput edit }
        requires fork_point { IsForkPoint (scenario_of self.old) (row (scenario_of self.old) edit).effect range fork_point.now }
        ensures turn { turn_of self.new ≡ turn_of self.old }
        ensures trail { trail_of self.new ≡ trail_of self.old }
        ensures tried { IfOk result (IsTried (row (scenario_of self.old) edit).after range) }
    {
        try_edit(self.alloc, &mut self.scenario, edit, fork_point, range)
    }

    /// Returns the first compares of the run, and those of the run with an edit that gives the input bytes, from the step of a fork point for the
    /// edit on. Nothing is changed.
    #[tactic(auto, unfolding(crate::specs::Session::turn_of, crate::specs::Session::trail_of))]
    pub fn compare_edit(
        &mut self,
        edit: Edit,
        fork_point: &ForkPoint,
        most: usize,
    ) -> Result<Compared, AllocError>
        requires taken { IsTaken (scenario_of self.old) edit }
        requires input { GivesInput edit }
        requires fork { IsForkFor (row (scenario_of self.old) edit).effect (run_of (scenario_of self.old)) (scenario_of self.old).step fork_point.now.fork }
        ensures turn { turn_of self.new ≡ turn_of self.old }
        ensures trail { trail_of self.new ≡ trail_of self.old }
        ensures compared { IfOk result (IsCompared (scenario_of self.old) (row (scenario_of self.old) edit).after fork_point.now.fork.step most) }
    {
        compare_edit(self.alloc, &mut self.scenario, edit, &fork_point.fork, most)
    }

    /// Returns the greatest step that may be chosen or marked.
    #[tactic(auto, unfolding(crate::specs::Session::turn_of))]
    pub fn limit(&self) -> u32
        ensures { result ≡ limit_of (scenario_of self.now) }
    {
        self.scenario.limit()
    }

    /// Returns the number of bytes of the input.
    #[tactic(auto, unfolding(crate::specs::Session::turn_of))]
    pub fn input_len(&self) -> u64
        ensures { result ≡ length (scenario_of self.now).setup.input }
    {
        self.scenario.setup().input.len() as u64
    }

    /// Returns the input.
    #[tactic(auto, unfolding(crate::specs::Session::turn_of))]
    pub fn input(&self) -> &[u8]
        ensures { result.now ≡ (scenario_of self.now).setup.input }
    {
        self.scenario.input()
    }

    /// Appends the line of the verdict on the run up to the chosen step. The trail then holds machines as after a report. The steps that
    /// find the first use count on its meter too.
    #[tactic(auto, unfolding(crate::specs::Session::turn_of, crate::specs::Session::trail_of))]
    pub fn certify(&mut self, out: &mut Vec<u8>) -> Result<(), AllocError>
        ensures turn { turn_of self.new ≡ turn_of self.old }
        ensures tells { OnOk result (AppendsReport (IsVerdictOf (scenario_of self.old)) out.old.items out.new.items) }
        ensures work { OnOk result (((work_on (trail_of self.new)).last ≡ reached (work_on (trail_of self.old)).apart (work_on (trail_of self.old)).last (scenario_of self.old).step)
            × ((work_on (trail_of self.new)).apart ≡ (work_on (trail_of self.old)).apart)) }
        ensures short { is_short (trail_of self.new) ≡ is_short (trail_of self.old) }
    {
        let verdict = certify(
            &mut self.trail,
            self.scenario.setup(),
            self.scenario.marks(),
            self.scenario.step(),
        )?;
        push_verdict(out, self.scenario.image(), self.scenario.step(), &verdict)
    }

    /// Appends the report at the chosen step.
    #[tactic(auto, unfolding(crate::specs::Session::turn_of, crate::specs::Session::trail_of))]
    fn report(&mut self, out: &mut Vec<u8>) -> Result<(), AllocError>
        ensures turn { turn_of self.new ≡ turn_of self.old }
        ensures ok { OnOk result (AppendsReport (IsReportOf (scenario_of self.old)) out.old.items out.new.items) }
        ensures err { OnErr result (out.new.items ≡ out.old.items) }
        ensures work { OnOk result (MovesWork (scenario_of self.old) Command.Report (work_on (trail_of self.old)) (work_on (trail_of self.new))) }
        ensures short { is_short (trail_of self.new) ≡ is_short (trail_of self.old) }
    {
        let machine = self.machine()?;
        self.scenario.render(&machine, out)
    }

    /// Carries out an accepted command.
    fn answer_command(&mut self, command: Command, out: &mut Vec<u8>) -> Result<Reply, Fault>
        requires { command_refusal (scenario_of self.old) command ≡ None }
        ensures carried { Carried self.new (turn_of self.old) command result out.old.items out.new.items }
        ensures work { Works self.old self.new command result }
    {
        match command {
            Command::Goto(step) => {
                self.choose(step);
                Ok(Reply::Done)
            }
            Command::Report => {
                self.report(out)?;
                Ok(Reply::Report)
            }
            Command::Edit(edit) => {
                self.edit(edit)?;
                Ok(Reply::Done)
            }
            Command::Worked => Ok(Reply::Work(self.work())),
        }
    }

    /// Counts a line, and carries out its command unless the line is rejected.
    fn answer(
        &mut self,
        accepted: Result<Command, Fault>,
        out: &mut Vec<u8>,
    ) -> Result<Reply, Fault>
        requires { IfOk accepted (λ command. command_refusal (scenario_of self.old) command ≡ None) }
        ensures meets { MeetsAs self.new (turn_of self.old) accepted result out.old.items out.new.items }
        ensures work { WorksAs self.old self.new accepted result }
    {
        self.count();
        self.answer_command(accepted?, out)
    }

    /// Answers one line, which has no newline. Appends the bytes of a report and nothing else. A rejected line changes nothing but the
    /// number of lines.
    pub fn command(&mut self, line: &[u8], out: &mut Vec<u8>) -> Result<Reply, Fault>
        ensures meets { Meets self.new (turn_of self.old) line.now result out.old.items out.new.items }
        // Unless memory runs out or the trail is short, the number of executed steps is the one that the line asks for, by its first
        // effect. Only a patch makes the trail short.
        ensures work { WorksLine self.old self.new line.now result }
    {
        let accepted = self.accept(line);
        self.answer(accepted, out)
    }

    /// Answers one line that the caller has read, as a command or as why it is none: as [`Session::command`] answers a line of a session
    /// that is read so. A line is rejected first because there were too many, or because it is too long.
    pub fn command_as(
        &mut self,
        line: &[u8],
        read: Result<Command, Fault>,
        out: &mut Vec<u8>,
    ) -> Result<Reply, Fault>
        ensures meets { MeetsAs self.new (turn_of self.old) (accepted_as (turn_of self.old) line.now read) result out.old.items out.new.items }
        ensures work { WorksAs self.old self.new (accepted_as (turn_of self.old) line.now read) result }
    {
        let accepted = self.accept_as(line, read);
        self.answer(accepted, out)
    }
}
