//! What the definitions say.
ghost use Rattle.store_contents.specs.Contents.{BytesHaveOneId};

/// In a table of contents no two ids have equal bytes.
pub fn bytes_have_one_id()
    ensures { BytesHaveOneId }
{}
