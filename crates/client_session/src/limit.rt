// How long the updates of a session may be.
ghost use Rattle.std.specs.Prelude.{◌≡◌, ◌≤◌, ◌<◌};
ghost use Rattle.client_session.specs.Limits.{longest};

// The most bytes of an update at first, and those once a client has said hello.
const MAX_UPDATE: u64 = 1_048_576;

const MAX_UPDATE_GREATER: u64 = 16_777_216;

/// The most bytes of an update of a session.
#[derive(Clone, Copy, Debug, PartialEq, Eq)]
pub enum UpdateLimit {
    /// 1,048,576, until a client says hello.
    AtFirst,
    /// 16,777,216, until the session hangs up.
    AfterHello,
}

impl UpdateLimit {
    /// The bytes of the longest update.
    pub fn bytes(self) -> u64
        ensures is { result ≡ longest self }
        ensures most { result ≤ 16777216 }
    {
        match self {
            UpdateLimit::AtFirst => MAX_UPDATE,
            UpdateLimit::AfterHello => MAX_UPDATE_GREATER,
        }
    }
}
