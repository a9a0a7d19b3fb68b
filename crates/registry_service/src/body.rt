//! The body of a request, apart from the rest of it: its bytes, those of a stage, or their number alone. What
//! an operation does with it.

ghost use Rattle.std.specs.Prelude.{◌≡◌, ℕ, Option, Some, None, length};
ghost use Rattle.oci_types.specs.Text.{Text};
ghost use Rattle.registry_model.specs.Ask.{text_in};
ghost use Rattle.registry_model.specs.Blobs.{push_blob};
ghost use Rattle.registry_model.specs.Sessions.{append_chunk, close_session};
ghost use Rattle.registry_model.specs.Manifests.{push_manifest};
ghost use Rattle.registry_model.specs.Keeping.{Kept, Spends};
ghost use Rattle.operation_parts.specs.Operating.{IsUnspent, HasRepo, Operates, Answers, Carries};
ghost use Rattle.registry_service.specs.Bodies.{StageIs, from_body};

use blob_operations::blobs::push_blob;
use blob_operations::session_close::close_session;
use blob_operations::uploads::append_chunk;
use manifest_operations::manifest_push::{push_manifest, refuse_manifest};
use oci_types::{Fault, RepoName};
use registry_holding::Holder;
use registry_model::{Keeper, Reply};
use staged_operations::blobs::push_staged_blob;
use staged_operations::session_close::close_staged_session;
use staged_operations::uploads::append_staged_chunk;
use std::alloc::Global;

/// The body of a request over a keeper. An operation gives the answer of the definitions on the bytes whose
/// body it is, or gives up. Of the stage that it names, if any, nothing is known afterwards.
pub trait RequestBody<K: Keeper>: Copy {
    /// Whether it is the body of these bytes, by what is kept.
    ghost is_body: { Self → Kept → Text → Type 0 };

    /// Under which number its bytes are staged, where they are.
    ghost stage: { Self → Option ℕ };

    /// How many bytes it has.
    fn size(self) -> usize
        ensures { (k : Kept) (t : Text) → is_body self k t → result ≡ length t };

    /// The push of a whole blob to a repository that is there.
    fn push_blob(
        self,
        keeper: &mut K,
        alloc: Global,
        name: &RepoName,
        digest: &str,
    ) -> Result<Reply, Fault>
        requires unspent { IsUnspent (K.kept keeper.old) }
        requires there { K.is_honest keeper.old → HasRepo (K.kept keeper.old) name.now }
        ensures comes { K.is_honest keeper.new → (t : Text) → is_body self (K.kept keeper.old) t
            → Operates result name.now (λ r. push_blob r name.now digest.now t)
            (from_body (stage self) (K.kept keeper.old) (K.kept keeper.new)) (K.kept keeper.new) }
        ensures answers { Answers result }
        ensures carries { Carries result }
        ensures spends { Spends result (K.kept keeper.old) (K.kept keeper.new) }
        ensures honest { K.is_honest keeper.new → K.is_honest keeper.old };

    /// PATCH of an upload session: a chunk.
    fn append_chunk(
        self,
        keeper: &mut K,
        alloc: Global,
        name: &RepoName,
        reference: &str,
        range: Option<&[u8]>,
    ) -> Result<Reply, Fault>
        requires unspent { IsUnspent (K.kept keeper.old) }
        requires there { K.is_honest keeper.old → HasRepo (K.kept keeper.old) name.now }
        ensures comes { K.is_honest keeper.new → (t : Text) → is_body self (K.kept keeper.old) t
            → Operates result name.now
            (λ r. append_chunk r name.now reference.now (text_in range.entry) t)
            (from_body (stage self) (K.kept keeper.old) (K.kept keeper.new)) (K.kept keeper.new) }
        ensures answers { Answers result }
        ensures carries { Carries result }
        ensures spends { Spends result (K.kept keeper.old) (K.kept keeper.new) }
        ensures honest { K.is_honest keeper.new → K.is_honest keeper.old };

    /// PUT of an upload session: its last chunk, and its end.
    fn close_session(
        self,
        keeper: &mut K,
        alloc: Global,
        name: &RepoName,
        reference: &str,
        digest: Option<&str>,
        range: Option<&[u8]>,
    ) -> Result<Reply, Fault>
        requires unspent { IsUnspent (K.kept keeper.old) }
        requires there { K.is_honest keeper.old → HasRepo (K.kept keeper.old) name.now }
        ensures comes { K.is_honest keeper.new → (t : Text) → is_body self (K.kept keeper.old) t
            → Operates result name.now
            (λ r. close_session r name.now reference.now (text_in digest.entry) (text_in range.entry) t)
            (from_body (stage self) (K.kept keeper.old) (K.kept keeper.new)) (K.kept keeper.new) }
        ensures answers { Answers result }
        ensures carries { Carries result }
        ensures spends { Spends result (K.kept keeper.old) (K.kept keeper.new) }
        ensures honest { K.is_honest keeper.new → K.is_honest keeper.old };

    /// PUT of a manifest.
    fn push_manifest(
        self,
        keeper: &mut K,
        alloc: Global,
        name: &RepoName,
        reference: &str,
        content_type: Option<&[u8]>,
    ) -> Result<Reply, Fault>
        requires unspent { IsUnspent (K.kept keeper.old) }
        requires there { K.is_honest keeper.old → HasRepo (K.kept keeper.old) name.now }
        ensures comes { K.is_honest keeper.new → (t : Text) → is_body self (K.kept keeper.old) t
            → Operates result name.now
            (λ r. push_manifest r name.now reference.now (text_in content_type.entry) t)
            (from_body (stage self) (K.kept keeper.old) (K.kept keeper.new)) (K.kept keeper.new) }
        ensures answers { Answers result }
        ensures carries { Carries result }
        ensures spends { Spends result (K.kept keeper.old) (K.kept keeper.new) }
        ensures honest { K.is_honest keeper.new → K.is_honest keeper.old };
}

/// The bytes themselves.
#[derive(Clone, Copy)]
pub struct WholeBody<'a>(pub &'a [u8]);

impl<'a, K: Keeper> RequestBody<K> for WholeBody<'a> {
    ghost is_body = { λ b k t. b.0.now ≡ t };

    ghost stage = { λ b. None };

    fn size(self) -> usize {
        self.0.len()
    }

    fn push_blob(
        self,
        keeper: &mut K,
        alloc: Global,
        name: &RepoName,
        digest: &str,
    ) -> Result<Reply, Fault> {
        push_blob(keeper, alloc, name, digest, self.0)
    }

    fn append_chunk(
        self,
        keeper: &mut K,
        alloc: Global,
        name: &RepoName,
        reference: &str,
        range: Option<&[u8]>,
    ) -> Result<Reply, Fault> {
        append_chunk(keeper, alloc, name, reference, range, self.0)
    }

    fn close_session(
        self,
        keeper: &mut K,
        alloc: Global,
        name: &RepoName,
        reference: &str,
        digest: Option<&str>,
        range: Option<&[u8]>,
    ) -> Result<Reply, Fault> {
        close_session(keeper, alloc, name, reference, digest, range, self.0)
    }

    fn push_manifest(
        self,
        keeper: &mut K,
        alloc: Global,
        name: &RepoName,
        reference: &str,
        content_type: Option<&[u8]>,
    ) -> Result<Reply, Fault> {
        push_manifest(keeper, alloc, name, reference, content_type, self.0)
    }
}

/// So many bytes that are staged under the number of a connection. A manifest is not pushed from there: that
/// gives up.
#[derive(Clone, Copy)]
pub struct StagedBody {
    pub key: u64,
    pub size: usize,
}

impl<H: Holder> RequestBody<H> for StagedBody {
    ghost is_body = { λ b k t. StageIs k b.key t × (b.size ≡ length t) };

    ghost stage = { λ b. Some b.key };

    fn size(self) -> usize {
        self.size
    }

    fn push_blob(
        self,
        keeper: &mut H,
        alloc: Global,
        name: &RepoName,
        digest: &str,
    ) -> Result<Reply, Fault> {
        push_staged_blob(keeper, alloc, name, digest, self.key)
    }

    fn append_chunk(
        self,
        keeper: &mut H,
        alloc: Global,
        name: &RepoName,
        reference: &str,
        range: Option<&[u8]>,
    ) -> Result<Reply, Fault> {
        append_staged_chunk(keeper, alloc, name, reference, range, self.key)
    }

    fn close_session(
        self,
        keeper: &mut H,
        alloc: Global,
        name: &RepoName,
        reference: &str,
        digest: Option<&str>,
        range: Option<&[u8]>,
    ) -> Result<Reply, Fault> {
        close_staged_session(keeper, alloc, name, reference, digest, range, self.key)
    }

    fn push_manifest(
        self,
        _keeper: &mut H,
        _alloc: Global,
        _name: &RepoName,
        _reference: &str,
        _content_type: Option<&[u8]>,
    ) -> Result<Reply, Fault> {
        Err(Fault::Memory)
    }
}

/// How many bytes came, which were not kept. What would look at them gives up; a manifest that is larger than
/// any is refused.
#[derive(Clone, Copy)]
pub struct CountedBody(pub usize);

impl<K: Keeper> RequestBody<K> for CountedBody {
    ghost is_body = { λ b k t. b.0 ≡ length t };

    ghost stage = { λ b. None };

    fn size(self) -> usize {
        self.0
    }

    fn push_blob(
        self,
        _keeper: &mut K,
        _alloc: Global,
        _name: &RepoName,
        _digest: &str,
    ) -> Result<Reply, Fault> {
        Err(Fault::Memory)
    }

    fn append_chunk(
        self,
        _keeper: &mut K,
        _alloc: Global,
        _name: &RepoName,
        _reference: &str,
        _range: Option<&[u8]>,
    ) -> Result<Reply, Fault> {
        Err(Fault::Memory)
    }

    fn close_session(
        self,
        _keeper: &mut K,
        _alloc: Global,
        _name: &RepoName,
        _reference: &str,
        _digest: Option<&str>,
        _range: Option<&[u8]>,
    ) -> Result<Reply, Fault> {
        Err(Fault::Memory)
    }

    fn push_manifest(
        self,
        _keeper: &mut K,
        alloc: Global,
        _name: &RepoName,
        reference: &str,
        _content_type: Option<&[u8]>,
    ) -> Result<Reply, Fault> {
        refuse_manifest(alloc, reference, self.0)
    }
}
