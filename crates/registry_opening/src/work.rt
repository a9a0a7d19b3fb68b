ghost use Rattle.registry_model.specs.Keeping.{Kept};

use registry_model::Keeper;

/// A keeper behind a piece of work, and what the work came to.
pub struct Ended<K, T> {
    pub keeper: K,
    pub told: T,
}

/// What is done over a registry while it is open.
pub trait Work<K: Keeper> {
    type Told;

    // What is done, from the state of the keeper before to that behind it, as far as the storage returned
    // what was written.
    ghost does: { Self → Kept → Self.Told → Self → Kept → Type 0 };

    // What holds of it whatever the storage did.
    ghost says: { Self → Self.Told → Self → Type 0 };

    /// Does it, and gives the keeper back.
    fn work(&mut self, kept: K) -> Ended<K, Self::Told>
        ensures honest { K.is_honest result.keeper → K.is_honest kept }
        ensures does { K.is_honest result.keeper
            → does self.old (K.kept kept) result.told self.new (K.kept result.keeper) }
        ensures says { says self.old result.told self.new };
}
