//! A session that gets one line after another, some of which try an input.
ghost use Rattle.std.specs.Prelude.{◌≡◌, ◌++◌, [], IsTrue, OnErr, OnOk};
ghost use Rattle.replay_session.specs.Session.{scenario_of, trail_of, turn_of};
ghost use Rattle.replay_session.specs.Work.{work_on};
ghost use Rattle.texts.specs.Tallied.{entries_of, is_met, number_of, with_text};
ghost use Rattle.tries.specs.Holding.{IsHeld, held-prop};
ghost use Rattle.tries.specs.Merging.{IsMerged, agains_of, news_of};
ghost use Rattle.tries.specs.Tries.{asks, planned_text, tried_text};

use crate::merging::merge;
use crate::plan_text::{END, PlanText};
use crate::plans::{Attempt, BytePlan, plan_asked};
use crate::replies::{push_differs, push_planned, push_reply};
use crate::taking::{copy_of, keep_if, take_last, takes};
use checkpoints::{Effect, Sides};
use commands::{Edit, Fault};
use guest_machine::Span;
use line_protocol::{LONGEST_LINE, Listener};
use look_lines::{begins_with, edit_tried, range_of};
use looks::Viewer;
use replay_session::{ForkPoint, Session, Tried};
use report_lines::push_text;
use std::alloc::AllocError;
use sweep_plans::ByteValues;
use texts::Tallies;

/// How many compares of a run are looked at.
const MOST_COMPARES: usize = 65_536;

/// The number of values of a byte.
const VALUES: u32 = 256;

/// Whether a line is one that a word begins, and is answered.
#[tactic(auto, unfolding(crate::specs::Tries::asks))]
fn asks(word: &[u8], session: &Session<'_>, line: &[u8]) -> bool
    ensures { result ≡ asks word.now (turn_of session.now) line.now }
{
    begins_with(line, word) && !session.is_over() && line.len() <= LONGEST_LINE
}

/// Whether two effects are known to be the same.
fn are_same(one: Effect, other: Effect) -> bool
    ensures { IsTrue result → one ≡ other }
{
    match (one, other) {
        (Effect::Input(a), Effect::Input(b)) => a == b,
        (Effect::End, Effect::End) => true,
        (Effect::Nowhere, Effect::Nowhere) => true,
        _ => false,
    }
}

/// Writes the reply to a try, and keeps what the try has told. If memory runs out, nothing is kept.
fn tell(
    text: &mut Vec<u8>,
    told: &mut Tallies,
    seen: &mut Vec<Sides>,
    tried: Tried,
) -> Result<(), AllocError>
    requires { text.old.items ≡ [] }
    ensures tells { OnOk result (text.new.items ≡ tried_text (is_met (entries_of told.old) tried.outcome.items) (number_of (entries_of told.old) tried.outcome.items)
        tried.outcome.items (news_of seen.old.items tried.sides.items) (agains_of seen.old.items tried.sides.items)) }
    ensures told { OnOk result (entries_of told.new ≡ with_text (entries_of told.old) tried.outcome.items) }
    ensures seen { OnOk result (IsMerged seen.old.items tried.sides.items seen.new.items) }
    ensures kept { OnErr result ((entries_of told.new ≡ entries_of told.old) × (seen.new ≡ seen.old)) }
{
    let mut run = tried.sides;
    let news = merge(seen, &mut run);
    push_reply(text, told.find(&tried.outcome), &tried.outcome, news)?;
    let _found = told.record(&tried.outcome)?;
    *seen = run;
    Ok(())
}

/// Appends what is told of a try of a plan, which is written as `piece` first, and keeps what the try has told. If memory runs out, nothing
/// is kept.
fn tell_planned(
    text: &mut PlanText,
    piece: &mut Vec<u8>,
    told: &mut Tallies,
    seen: &mut Vec<Sides>,
    attempt: Attempt,
    tried: Tried,
) -> Result<(), AllocError>
    ensures tells { OnOk result (text.new.bytes.items ≡ text.old.bytes.items ++ planned_text attempt (is_met (entries_of told.old) tried.outcome.items)
        (number_of (entries_of told.old) tried.outcome.items) tried.outcome.items (news_of seen.old.items tried.sides.items) (agains_of seen.old.items tried.sides.items)) }
    ensures told { OnOk result (entries_of told.new ≡ with_text (entries_of told.old) tried.outcome.items) }
    ensures seen { OnOk result (IsMerged seen.old.items tried.sides.items seen.new.items) }
    ensures kept { OnErr result ((entries_of told.new ≡ entries_of told.old) × (seen.new.items ≡ seen.old.items) × (text.new.bytes.items ≡ text.old.bytes.items)) }
{
    let mut sides = tried.sides;
    let news = merge(seen, &mut sides);
    piece.clear();
    let found = told.find(&tried.outcome);
    push_planned(piece, attempt, found, &tried.outcome, news)?;
    text.make_room(piece.len())?;
    let _met = told.record(&tried.outcome)?;
    text.push(piece);
    *seen = sides;
    Ok(())
}

/// A fork point, and the effect of the edits that it is for.
#[derive(Drop)]
struct Held {
    effect: Effect,
    fork_point: ForkPoint,
}

/// A session that can be looked at, what tries have told of it, and the text of the last reply.
#[derive(Drop)]
pub struct Tries<'a> {
    viewer: Viewer<'a>,
    range: Span,
    seen: Vec<Sides>,
    told: Tallies,
    /// The edit of the last try, if the lines after it only try, ask for compares or look.
    last: Option<Edit>,
    held: Option<Held>,
    ghost is_held: { IsHeld (scenario_of viewer.session) range (work_on (trail_of viewer.session)) held } by { held-prop (scenario_of viewer.session) range (work_on (trail_of viewer.session)) held },
    shown: Vec<u8>,
    /// Whether the last reply is that to a try.
    is_shown: bool,
}

impl<'a> Tries<'a> {
    ghost use Rattle.std.specs.Prelude.{◌≡◌, ◌<◌, ◌≤◌, ◌∷◌, [], if◌then◌else◌, is_ok, length, slice_index_or, IfOk, OnOk, OnErr, false, true};
    ghost use Rattle.checkpoints.specs.Effects.{IsOfSetup};
    ghost use Rattle.replay_session.specs.Session.{scenario_of, turn_of};
    ghost use Rattle.replay_session.specs.Stages.{stage_of};
    ghost use Rattle.replay_session.specs.Trying.{GivesInput, IsForkPoint, IsTried};
    ghost use Rattle.scenario.specs.Edits.{row, IsTaken};
    ghost use Rattle.tries.specs.Stages.{reply_of_tries, stage_of_tries};
    ghost use Rattle.tries.specs.Plans.{attempts_at, attempts_of, edit_of};
    ghost use Rattle.tries.specs.Tries.{Differ, Keeps, LeavesBase, Others, PlanMoves, Planned, PlansLine, Rejected, Refused, TellsLine};
    ghost use Rattle.tries.specs.Tries.{Tried as HasTried, TriedAs, TriedUpTo, TryMoves};
    ghost use Rattle.tries.specs.Tries.{gathered, planned_text, takes, untried};

    pub(crate) fn new(session: Session<'a>) -> Result<Self, AllocError>
        ensures { IfOk result (λ tries. stage_of_tries tries ≡ untried (stage_of session.entry)) }
    {
        let alloc = session.allocator();
        let range = range_of(session.image());
        let viewer = Viewer::new(session)?;
        Ok(Tries {
            viewer,
            range,
            seen: Vec::new(alloc),
            told: Tallies::new(alloc),
            last: None,
            held: None,
            shown: Vec::new(alloc),
            is_shown: false,
        })
    }

    /// Replies why a line is rejected.
    #[tactic(auto, unfolding(crate::specs::Stages::reply_of_tries, crate::specs::Stages::stage_of_tries))]
    fn refuse(&mut self, fault: Fault)
        ensures rejected { Rejected (stage_of_tries self.old) fault (reply_of_tries self.new) (stage_of_tries self.new) }
        ensures base { LeavesBase (stage_of_tries self.old) (stage_of_tries self.new) }
    {
        self.viewer.refuse(fault);
        self.is_shown = false;
    }

    /// Takes the fork point for an edit that changes only the setup: the one that is held, if it is that, or a new one.
    #[tactic(auto, unfolding(crate::specs::Stages::stage_of_tries))]
    fn take_fork_point(&mut self, effect: Effect) -> Result<Held, AllocError>
        requires { IsOfSetup effect }
        ensures base { LeavesBase (stage_of_tries self.old) (stage_of_tries self.new) }
        ensures kept { Keeps (stage_of_tries self.old) (stage_of_tries self.new) }
        ensures work { OnOk result (TryMoves (stage_of self.old.viewer.session) (stage_of self.new.viewer.session)) }
        ensures fork_point { IfOk result (λ held. (held.effect ≡ effect) × IsForkPoint (scenario_of self.old.viewer.session) effect self.old.range held.fork_point) }
    {
        if let Some(held) = self.held.take()
            && are_same(held.effect, effect)
        {
            return Ok(held);
        }
        let fork_point = self.viewer.session.fork_point(effect, self.range)?;
        Ok(Held { effect, fork_point })
    }

    /// Tells in which compares the run differs with an edit that gives the input bytes, and writes the reply.
    #[tactic(auto, unfolding(crate::specs::Stages::stage_of_tries))]
    fn compare(&mut self, edit: Edit) -> Result<(), AllocError>
        requires taken { IsTaken (scenario_of self.old.viewer.session) edit }
        requires input { GivesInput edit }
        ensures base { LeavesBase (stage_of_tries self.old) (stage_of_tries self.new) }
        ensures differ { OnOk result (Differ (stage_of_tries self.old) edit self.new.shown.items (stage_of_tries self.new)) }
        ensures kept { OnErr result (Keeps (stage_of_tries self.old) (stage_of_tries self.new)) }
    {
        let effect = self.viewer.session.effect(&edit);
        let held = self.take_fork_point(effect)?;
        let compared = self
            .viewer
            .session
            .compare_edit(edit, &held.fork_point, MOST_COMPARES)?;
        self.held = Some(held);
        self.shown.clear();
        push_differs(&mut self.shown, &compared.own, &compared.other)?;
        push_text(&mut self.shown, END)
    }

    /// Runs the session's program with an edit that gives the input bytes.
    #[tactic(auto, unfolding(crate::specs::Stages::stage_of_tries))]
    fn run(&mut self, edit: Edit) -> Result<Tried, AllocError>
        requires taken { IsTaken (scenario_of self.old.viewer.session) edit }
        requires input { GivesInput edit }
        ensures base { LeavesBase (stage_of_tries self.old) (stage_of_tries self.new) }
        ensures kept { Keeps (stage_of_tries self.old) (stage_of_tries self.new) }
        ensures work { OnOk result (TryMoves (stage_of self.old.viewer.session) (stage_of self.new.viewer.session)) }
        ensures tried { IfOk result (IsTried (row (scenario_of self.old.viewer.session) edit).after self.old.range) }
    {
        let effect = self.viewer.session.effect(&edit);
        let held = self.take_fork_point(effect)?;
        let tried = self
            .viewer
            .session
            .try_edit(edit, &held.fork_point, self.range)?;
        self.held = Some(held);
        Ok(tried)
    }

    /// Tries an edit that gives the input bytes, and writes the reply.
    #[tactic(auto, unfolding(crate::specs::Stages::stage_of_tries))]
    fn try_edit(&mut self, edit: Edit) -> Result<(), AllocError>
        requires taken { IsTaken (scenario_of self.old.viewer.session) edit }
        requires input { GivesInput edit }
        ensures base { LeavesBase (stage_of_tries self.old) (stage_of_tries self.new) }
        ensures tried { OnOk result (HasTried (stage_of_tries self.old) edit self.new.shown.items (stage_of_tries self.new)) }
        ensures kept { OnErr result (Keeps (stage_of_tries self.old) (stage_of_tries self.new)) }
    {
        let last = copy_of(self.viewer.session.allocator(), &edit)?;
        let tried = self.run(edit)?;
        self.shown.clear();
        tell(&mut self.shown, &mut self.told, &mut self.seen, tried)?;
        self.last = Some(last);
        Ok(())
    }

    /// Tries a byte with another value, and appends to the reply what is new. If memory runs out, nothing is kept.
    #[tactic(auto, unfolding(crate::specs::Stages::stage_of_tries))]
    fn try_byte(&mut self, text: &mut PlanText, attempt: Attempt) -> Result<(), AllocError>
        requires { attempt.offset < length (scenario_of self.old.viewer.session).setup.input }
        ensures base { LeavesBase (stage_of_tries self.old) (stage_of_tries self.new) }
        ensures tried { OnOk result (TriedAs (scenario_of self.old.viewer.session) self.old.range (planned_text attempt) (edit_of attempt)
            (gathered (stage_of_tries self.old) text.old.bytes.items) (gathered (stage_of_tries self.new) text.new.bytes.items)) }
        ensures work { OnOk result (TryMoves (stage_of self.old.viewer.session) (stage_of self.new.viewer.session)) }
        ensures kept { OnErr result (gathered (stage_of_tries self.new) text.new.bytes.items ≡ gathered (stage_of_tries self.old) text.old.bytes.items) }
    {
        let edit = attempt.edit(self.viewer.session.allocator())?;
        let tried = self.run(edit)?;
        tell_planned(
            text,
            &mut self.shown,
            &mut self.told,
            &mut self.seen,
            attempt,
            tried,
        )
    }

    /// The same, if the value is wanted.
    fn try_if(
        &mut self,
        text: &mut PlanText,
        is_wanted: bool,
        attempt: Attempt,
    ) -> Result<(), AllocError>
        requires { attempt.offset < length (scenario_of self.old.viewer.session).setup.input }
        ensures base { LeavesBase (stage_of_tries self.old) (stage_of_tries self.new) }
        ensures tried { TriedUpTo (is_ok result) (scenario_of self.old.viewer.session) self.old.range (if is_wanted then attempt ∷ [] else [])
            (gathered (stage_of_tries self.old) text.old.bytes.items) (gathered (stage_of_tries self.new) text.new.bytes.items) }
        ensures work { OnOk result (PlanMoves (if is_wanted then attempt ∷ [] else [])
            (stage_of self.old.viewer.session) (stage_of self.new.viewer.session)) }
    {
        if is_wanted {
            self.try_byte(text, attempt)
        } else {
            Ok(())
        }
    }

    /// Returns a byte of the session's input.
    fn byte_at(&self, offset: u32) -> u8
        requires { offset < length (scenario_of self.now.viewer.session).setup.input }
        ensures { result ≡ slice_index_or (scenario_of self.now.viewer.session).setup.input offset 0 }
    {
        self.viewer.session.input()[offset as usize]
    }

    /// Tries a byte with each of the wanted values.
    fn try_place(
        &mut self,
        text: &mut PlanText,
        values: &ByteValues,
        offset: u32,
    ) -> Result<(), AllocError>
        requires { offset < length (scenario_of self.old.viewer.session).setup.input }
        ensures base { LeavesBase (stage_of_tries self.old) (stage_of_tries self.new) }
        ensures tried { TriedUpTo (is_ok result) (scenario_of self.old.viewer.session) self.old.range
            (attempts_at values.now (scenario_of self.old.viewer.session).setup.input offset)
            (gathered (stage_of_tries self.old) text.old.bytes.items) (gathered (stage_of_tries self.new) text.new.bytes.items) }
        ensures work { OnOk result (PlanMoves (attempts_at values.now (scenario_of self.old.viewer.session).setup.input offset)
            (stage_of self.old.viewer.session) (stage_of self.new.viewer.session)) }
    {
        let own = self.byte_at(offset);
        for other in 0..VALUES {
            let value = other as u8;
            let is_wanted = values.wants_other(own, value);
            self.try_if(text, is_wanted, Attempt { offset, value })?;
        }
        Ok(())
    }

    /// Tries the bytes of a plan with each of their values.
    fn try_places(&mut self, text: &mut PlanText, plan: &BytePlan) -> Result<(), AllocError>
        requires { plan.now.places.end ≤ length (scenario_of self.old.viewer.session).setup.input }
        ensures base { LeavesBase (stage_of_tries self.old) (stage_of_tries self.new) }
        ensures tried { TriedUpTo (is_ok result) (scenario_of self.old.viewer.session) self.old.range
            (attempts_of plan.now (scenario_of self.old.viewer.session).setup.input)
            (gathered (stage_of_tries self.old) text.old.bytes.items) (gathered (stage_of_tries self.new) text.new.bytes.items) }
        ensures work { OnOk result (PlanMoves (attempts_of plan.now (scenario_of self.old.viewer.session).setup.input)
            (stage_of self.old.viewer.session) (stage_of self.new.viewer.session)) }
    {
        let places = plan.places;
        for i in 0..places.count() {
            self.try_place(text, &plan.values, places.first + i)?;
        }
        Ok(())
    }

    /// Tries a plan, and writes the reply.
    #[tactic(auto, unfolding(crate::specs::Stages::reply_of_tries, crate::specs::Stages::stage_of_tries))]
    fn try_plan(&mut self, plan: &BytePlan)
        requires { plan.now.places.end ≤ length (scenario_of self.old.viewer.session).setup.input }
        ensures base { LeavesBase (stage_of_tries self.old) (stage_of_tries self.new) }
        ensures planned { Planned (stage_of_tries self.old) plan.now (reply_of_tries self.new) (stage_of_tries self.new) }
    {
        let Ok(mut text) = PlanText::new(self.viewer.session.allocator()) else {
            self.last = None;
            self.refuse(Fault::Memory);
            return;
        };
        let done = self.try_places(&mut text, plan);
        self.last = None;
        self.shown = text.end(done);
        self.is_shown = true;
    }

    /// Replies what was written, or that memory ran out.
    #[tactic(auto, unfolding(crate::specs::Stages::reply_of_tries, crate::specs::Stages::stage_of_tries))]
    fn finish(&mut self, done: Result<(), AllocError>)
        ensures ok { OnOk done ((stage_of_tries self.new ≡ stage_of_tries self.old) × (reply_of_tries self.new ≡ self.old.shown.items)) }
        ensures refused { OnErr done (Refused (stage_of_tries self.old) Fault.Memory (reply_of_tries self.new) (stage_of_tries self.new)) }
        ensures base { LeavesBase (stage_of_tries self.old) (stage_of_tries self.new) }
    {
        match done {
            Ok(()) => self.is_shown = true,
            Err(_) => self.refuse(Fault::Memory),
        }
    }

    /// Answers a line that tries a plan of inputs.
    fn plan_line(&mut self, line: &[u8])
        ensures { PlansLine (stage_of_tries self.old) line.now (reply_of_tries self.new) (stage_of_tries self.new) }
    {
        match plan_asked(line, self.viewer.session.input_len()) {
            Ok(plan) => self.try_plan(&plan),
            Err(fault) => self.refuse(fault),
        }
    }

    /// Answers a line that tries an input.
    fn try_line(&mut self, line: &[u8])
        ensures { TellsLine HasTried (stage_of_tries self.old) line.now (reply_of_tries self.new) (stage_of_tries self.new) }
    {
        let len = self.viewer.session.input_len();
        match edit_tried(self.viewer.session.allocator(), line, len) {
            Ok(edit) => {
                let done = self.try_edit(edit);
                self.finish(done);
            }
            Err(fault) => self.refuse(fault),
        }
    }

    /// Answers a line that asks in which compares the run of an input differs.
    fn differ_line(&mut self, line: &[u8])
        ensures { TellsLine Differ (stage_of_tries self.old) line.now (reply_of_tries self.new) (stage_of_tries self.new) }
    {
        let len = self.viewer.session.input_len();
        match edit_tried(self.viewer.session.allocator(), line, len) {
            Ok(edit) => {
                let done = self.compare(edit);
                self.finish(done);
            }
            Err(fault) => self.refuse(fault),
        }
    }

    /// Answers a line that makes the input of the last try the session's.
    #[tactic(auto, unfolding(crate::specs::Stages::reply_of_tries, crate::specs::Stages::stage_of_tries))]
    fn take_line(&mut self, line: &[u8])
        requires { takes line.now ≡ true }
        ensures { Others (stage_of_tries self.old) line.now (reply_of_tries self.new) (stage_of_tries self.new) }
    {
        let read = take_last(&mut self.last);
        self.held = None;
        self.viewer.answer_as(line, read);
        self.is_shown = false;
    }

    /// Answers any other line.
    #[tactic(auto, unfolding(crate::specs::Stages::reply_of_tries, crate::specs::Stages::stage_of_tries))]
    fn pass_line(&mut self, line: &[u8])
        requires { takes line.now ≡ false }
        ensures { Others (stage_of_tries self.old) line.now (reply_of_tries self.new) (stage_of_tries self.new) }
    {
        let looks = self.viewer.looks(line);
        keep_if(&mut self.last, looks);
        self.held = None;
        self.viewer.answer(line);
        self.is_shown = false;
    }
}

impl Listener for Tries<'_> {
    ghost use Rattle.replay_session.specs.Replies.{is_over};
    ghost use Rattle.replay_session.specs.Session.{turn_of};
    ghost use Rattle.tries.specs.LongLines.{long_alike};
    ghost use Rattle.tries.specs.Stages.{reply_of_tries, stage_of_tries};
    ghost use Rattle.tries.specs.Tries.{Tries as AnswersLine};

    ghost answers = { λ old line new. AnswersLine (stage_of_tries old) line (reply_of_tries new) (stage_of_tries new) };

    ghost reply = { reply_of_tries };

    ghost over = { λ tries. is_over (turn_of tries.viewer.session) };

    fn is_over(&self) -> bool {
        self.viewer.session.is_over()
    }

    #[tactic(auto, unfolding(crate::specs::Stages::reply_of_tries, crate::specs::Stages::stage_of_tries))]
    fn answer(&mut self, line: &[u8]) {
        if asks(b"try", &self.viewer.session, line) {
            self.try_line(line);
        } else if asks(b"tries", &self.viewer.session, line) {
            self.plan_line(line);
        } else if asks(b"differs", &self.viewer.session, line) {
            self.differ_line(line);
        } else if takes(line) {
            self.take_line(line);
        } else {
            self.pass_line(line);
        }
    }

    #[tactic(auto, unfolding(crate::specs::Stages::reply_of_tries))]
    fn reply(&self) -> &[u8] {
        if self.is_shown {
            &self.shown
        } else {
            self.viewer.reply()
        }
    }

    ghost long_alike = { λ old new a b longer longer' answers.
        long_alike (stage_of_tries old) (stage_of_tries new) a b (reply_of_tries new) longer longer' answers };
}
