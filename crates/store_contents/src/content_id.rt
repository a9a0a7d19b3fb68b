//! Names of contents.
ghost use Rattle.std.specs.Prelude.{◌≡◌};

/// Names a content. It is what stands in the column `id` of the contents, and in the columns `content`
/// that name them.
#[derive(Clone, Copy, Debug, PartialEq, Eq, PartialOrd, Ord)]
pub struct ContentId {
    id: i64,
}

impl ContentId {
    pub fn new(id: i64) -> ContentId
        ensures { result.id ≡ id }
    {
        ContentId { id }
    }

    pub fn get(&self) -> i64
        ensures { result ≡ self.now.id }
    {
        self.id
    }
}
