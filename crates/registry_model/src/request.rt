use crate::{Route, Settings};

/// A request's method (RFC 9110, section 9; PATCH: RFC 5789), compared byte for byte.
#[derive(Clone, Copy)]
pub enum Verb {
    Get,
    Head,
    Post,
    Patch,
    Put,
    Delete,
    Other,
}

/// What a request's path names (RFC 9110, section 3.1): an endpoint of the registry, if any, the place at
/// which clients log in, or what tells whether the service goes on.
#[derive(Clone, Copy)]
pub enum Resource {
    Registry,
    Tokens,
    Health,
}

/// The values of the query that a registry reads: of each key the first pair, decoded.
#[derive(Clone, Copy)]
pub struct Query<'a> {
    pub digest: Option<&'a str>,
    pub mount: Option<&'a str>,
    pub from: Option<&'a str>,
    pub n: Option<&'a str>,
    pub last: Option<&'a str>,
    pub artifact_type: Option<&'a str>,
}

/// A request, as the service answers it.
#[derive(Clone, Copy)]
pub struct Request<'a> {
    /// Those of its connection.
    pub settings: Settings,
    pub resource: Resource,
    /// The first value of `Host`, where there is one that is UTF-8.
    pub host: Option<&'a str>,
    /// The credentials of the scheme `Basic`, where the request has one `Authorization` field, and that of
    /// this scheme (RFC 7617), as they stand there.
    pub basic: Option<&'a [u8]>,
    /// The text of the bearer token, where the request has one.
    pub token: Option<&'a str>,
    pub method: Verb,
    pub route: Route<'a>,
    pub query: Query<'a>,
    pub content_type: Option<&'a [u8]>,
    pub content_range: Option<&'a [u8]>,
    pub body: &'a [u8],
}
