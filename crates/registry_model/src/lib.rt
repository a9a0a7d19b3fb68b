//! What a registry means: requests and replies as values, the world that they are answered in, and
//! who keeps that world. The service above asks a `Keeper`, whose calls are those of a plain map of
//! repositories that hold whole bytes of their own.
#![tactic(auto)]

pub mod admin;
pub mod grant;
pub mod keeper;
pub mod laws;
pub mod level;
pub mod limits;
pub mod numbers;
pub mod outcome;
pub mod page;
pub mod quota;
pub mod range;
pub mod refusal;
pub mod reply;
pub mod request;
pub mod route;
pub mod settings;
pub mod shared;
pub mod soundness;
pub mod worked;

pub use admin::{AdminCommand, AdminFault};
pub use grant::Grant;
pub use keeper::Keeper;
pub use level::Level;
pub use limits::{
    LARGEST_BLOB, LARGEST_MANIFEST, LARGEST_QUOTA, LARGEST_SESSION_NUMBER, MOST_SESSIONS,
};
pub use numbers::number;
pub use page::page_link;
pub use quota::{Quota, Usage};
pub use range::{RangeVerdict, range_fits};
pub use refusal::Refusal;
pub use reply::{Body, Challenge, Reply, Status};
pub use request::{Query, Request, Resource, Verb};
pub use route::Route;
pub use settings::{Scheme, Settings};
pub use shared::share;
