//! What whoever hands a database over knows of it.
ghost use Rattle.std.specs.Prelude.{Bool, true, false};

/// What is known of a database that a store is made over: a type, and no value that a store could forget.
/// Nothing is read to see that it is so.
pub trait Origin: Drop {
    ghost is_ours: { Bool };
}

/// It held nothing yet, or a registry that this program alone wrote, and nothing in it was uncommitted.
#[derive(Drop)]
pub struct Ours;

impl Origin for Ours {
    ghost is_ours = { true };
}

/// Anything may be in it. Of a store over it no call promises more than to return.
#[derive(Drop)]
pub struct Foreign;

impl Origin for Foreign {
    ghost is_ours = { false };
}
