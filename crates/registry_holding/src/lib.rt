//! What a keeper holds beside the world, each under the number of a connection: *stages*, the bytes of bodies
//! that came so far, and *pins*, contents that go out. `Holder` is what a keeper does with them; `Holding`
//! does it in memory, beside any keeper.
#![tactic(auto)]

pub mod holder;
pub mod holding;
pub mod pins;
pub mod recent;
pub mod shared_blobs;
pub mod staged;
pub mod stages;

pub use holder::Holder;
pub use holding::Holding;
pub use staged::{StageSum, Staged};
