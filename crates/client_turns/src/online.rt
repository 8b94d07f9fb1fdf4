ghost use Rattle.std.specs.Prelude.{◌≡◌};
ghost use Rattle.client_turns.specs.Watching.{is_offline};

/// Whether the backend can be reached, as far as a client knows.
#[derive(Clone, Copy, Debug, PartialEq, Eq)]
pub enum OnlineState {
    /// Nothing is known: no message came since the stream of listeners was closed last.
    Unknown,
    /// A message came.
    Online,
    /// The stream was lost before any message came, or the timer went off. Listeners are told what the cache has.
    Offline,
}

impl OnlineState {
    /// Whether the client is offline.
    pub fn is_offline(self) -> bool
        ensures { result ≡ is_offline self }
    {
        matches!(self, OnlineState::Offline)
    }
}
