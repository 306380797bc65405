//! How a session's link stands.

ghost use Rattle.std.specs.Prelude.{◌≡◌};

/// How a session's link stands. A link that is closed belongs to no session.
#[derive(Clone, Copy, Debug, PartialEq, Eq)]
pub enum Standing {
    /// The session is served.
    Open,
    /// The link is closed once its answers are sent, or are dropped as those of a lost link are. What still comes by it
    /// is dropped.
    Closing,
}

impl Standing {
    ghost use Rattle.mail_model.specs.Machine.{is_open};

    /// Whether the session is served.
    pub fn is_open(self) -> bool
        ensures { result ≡ is_open self }
    {
        match self {
            Standing::Open => true,
            Standing::Closing => false,
        }
    }
}
