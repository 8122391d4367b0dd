//! What a session sees and holds.

ghost use Rattle.std.specs.Prelude.{◌≡◌, option_copied, option_map};

use crate::drive::Drive;
use ace_eval::Authorities;
use transactions::{SessionId, View};

impl Drive {
    ghost use Rattle.std.specs.Prelude.{List};
    ghost use Rattle.transactions.specs.Sights.{look_up};
    ghost use Rattle.sessions.specs.Live.{session_room};
    ghost use Rattle.methods.specs.Effects.{live_holder};
    ghost use Rattle.history.specs.Opening.{Origin};
    ghost use Rattle.history.specs.History.{Act, log};
    ghost use Rattle.tper.specs.Seen.{living_session, rows_of_session, held_of_session, room_of_session, sight_kept, HoldsAlike};
    ghost use Rattle.drive.specs.State.{Agrees};

    /// The rows as a session sees them, with what its open transaction makes of them: its calls are judged by them. Those in
    /// force where it does not live.
    pub fn seen_by(&self, session: SessionId) -> View<'_>
        ensures stands { result ≡ sight_kept self.now.tper session }
        ensures told { (o : Origin) (acts : List Act) → Agrees self.now o acts
            → look_up result
            ≡ rows_of_session o (log o acts) (living_session (log o acts) session) }
        ensures config { result.config ≡ self.now.tper.store.config }
    {
        self.tper.seen_by(session)
    }

    /// The authorities that a session holds; none where it does not live.
    pub fn authorities(&self, session: SessionId) -> Option<&Authorities>
        ensures stands { option_copied result
            ≡ option_map (λ h. h.held) (live_holder self.now.tper.live session) }
        ensures told { (o : Origin) (acts : List Act) → Agrees self.now o acts
            → HoldsAlike (option_copied result)
            (held_of_session (log o acts) (living_session (log o acts) session)) }
    {
        self.tper.authorities(session)
    }

    /// How many bytes of tokens a response to a session has room for.
    pub fn room(&self, session: SessionId) -> u64
        ensures stands { result
            ≡ session_room self.now.tper.store.config.profile self.now.tper.live session }
        ensures told { (o : Origin) (acts : List Act) → Agrees self.now o acts
            → result ≡ room_of_session o.tables.config.profile (log o acts)
            (living_session (log o acts) session) }
    {
        self.tper.room(session)
    }
}
