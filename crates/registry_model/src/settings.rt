//! What an operator may choose. The default is the profile: every byte of a reply is then as if there were
//! nothing to choose.
ghost use Rattle.std.specs.Prelude.{◌≡◌};
ghost use Rattle.registry_model.specs.Limits.{most_body};
ghost use Rattle.registry_model.specs.Login.{profile, resource_at};

use crate::Resource;
use crate::limits::LARGEST_BLOB;

/// The scheme of a URL by which clients reach a registry (RFC 9110, section 4.2).
#[derive(Clone, Copy)]
pub enum Scheme {
    Http,
    Https,
}

/// What an operator may choose, one for all requests of a connection. No request and no command changes it.
#[derive(Clone, Copy)]
pub struct Settings {
    /// Clients log in by a name and a password at `/token`, which they reach by this scheme; with none, there
    /// is no such place.
    pub login: Option<Scheme>,
    /// `/healthz` tells whether the service goes on.
    pub health: bool,
}

impl Settings {
    /// The profile: neither.
    pub fn profile() -> Settings
        ensures { result ≡ profile }
    {
        Settings {
            login: None,
            health: false,
        }
    }

    /// The most bytes of a request's body: those of a blob.
    pub fn most_body(&self) -> u64
        ensures { result ≡ most_body self.now }
    {
        LARGEST_BLOB
    }

    /// What a path names, percent-decoded.
    pub fn resource_at(&self, path: &str) -> Resource
        ensures { result ≡ resource_at self.now path.now }
    {
        if self.login.is_some() && path == "/token" {
            Resource::Tokens
        } else if self.health && path == "/healthz" {
            Resource::Health
        } else {
            Resource::Registry
        }
    }
}
