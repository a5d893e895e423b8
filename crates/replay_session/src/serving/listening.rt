//! A session that gets one line after another.
use crate::serving::reply_texts::Texts;
use crate::session::Session;
use line_protocol::Listener;
use std::alloc::AllocError;

/// A session, and the texts of its replies.
#[derive(Drop)]
pub(crate) struct Listening<'a> {
    session: Session<'a>,
    texts: Texts,
}

impl<'a> Listening<'a> {
    ghost use Rattle.std.specs.Prelude.{◌≡◌, IfOk};

    pub(crate) fn new(session: Session<'a>) -> Result<Self, AllocError>
        ensures { IfOk result (λ listening. listening.session ≡ session.entry) }
    {
        let texts = Texts::new(session.allocator())?;
        Ok(Listening { session, texts })
    }
}

impl Listener for Listening<'_> {
    ghost use Rattle.replay_session.specs.LongLines.{long_alike};
    ghost use Rattle.replay_session.specs.Replies.{is_over, Replies};
    ghost use Rattle.replay_session.specs.Session.{turn_of};
    ghost use Rattle.replay_session.specs.Stages.{stage_of};
    ghost use Rattle.replay_session.specs.Texts.{last_text};

    ghost answers = { λ old line new. Replies (stage_of old.session) line (last_text new.texts) (stage_of new.session) };

    ghost reply = { λ listening. last_text listening.texts };

    ghost over = { λ listening. is_over (turn_of listening.session) };

    fn is_over(&self) -> bool {
        self.session.is_over()
    }

    fn answer(&mut self, line: &[u8]) {
        self.texts.answer(&mut self.session, line);
    }

    fn reply(&self) -> &[u8] {
        self.texts.text()
    }

    ghost long_alike = { λ old new a b longer longer' replied.
        long_alike (stage_of old.session) (stage_of new.session) a b (last_text new.texts) longer longer' replied };
}
