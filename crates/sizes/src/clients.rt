//! At which level the log names clients.
ghost use Rattle.std.specs.Prelude.{◌≡◌};
ghost use Rattle.sizes.specs.Causes.{client_level};

use log::Level;

/// The level of the messages `peer` and `gone`, and which connections have a `gone`.
#[derive(Clone, Copy)]
pub enum ClientsAt {
    /// At debug: a `peer` for each connection that is opened, and a `gone` for one that failed or was not opened.
    Debug,
    /// At info: also a `gone` for a connection that is done.
    Info,
}

impl ClientsAt {
    /// The level of both messages.
    pub fn level(self) -> Level
        ensures { result ≡ client_level self }
    {
        match self {
            ClientsAt::Debug => Level::Debug,
            ClientsAt::Info => Level::Info,
        }
    }

    /// Whether a connection that is done has its `gone`, too.
    pub fn has_done(self) -> bool {
        matches!(self, ClientsAt::Info)
    }
}
