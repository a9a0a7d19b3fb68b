ghost use Rattle.std.specs.Prelude.{◌≡◌, ◌++◌, [], true, false, None, Some, length, option_map};
ghost use Rattle.oci_types.specs.Text.{Text};
ghost use Rattle.registry_model.specs.Heads.{is_head, is_sent};
ghost use Rattle.registry_model.specs.declared.refusal.Refusal.TheVariants.{TokenRequired};
ghost use Rattle.registry_model.specs.Answer.{answer_of, refused};
ghost use Rattle.registry_model.specs.Ask.{ask_of};
ghost use Rattle.registry_model.specs.Doing.{Does, SpendsAs, CarriesOut, course_of_answer, course_of_result};
ghost use Rattle.registry_model.specs.Keeping.{HeldStays, Reads, ReadsBy, ReadsSo, Spends, names_shown, state_of, tags_shown, usages_shown, digests_shown};
ghost use Rattle.registry_model.specs.Lookups.{AreLevelsOn, AreLevelsOver, repo_names_of, usages_of, tags_at, blob_digests_at, blob_size_at, manifest_digests_at};
ghost use Rattle.registry_model.specs.World.{has_repo};
ghost use Rattle.manifest_operations.specs.Pruning.{names_at, unnamed_at};
ghost use Rattle.registry_holding.specs.Holding.{Stages, with_stage};
ghost use Rattle.registry_service.specs.Bodies.{StageIs, ask_with, from_body};

use crate::admin_commands::apply_command;
use crate::answering::answer;
use crate::body::{RequestBody, WholeBody};
use manifest_operations::{names_at, unnamed};
use oci_types::{Digest, Fault, RepoName, Tag, Token};
use registry_holding::Holder;
use registry_model::{
    AdminCommand, AdminFault, Grant, Keeper, Level, Reply, Request, Resource, Usage,
};
use std::alloc::{AllocError, Global};
use std::marker::Model;

/// A registry that answers.
#[derive(Drop)]
pub struct Service<K: Keeper> {
    keeper: K,
}

impl<K: Keeper> Model for Service<K> {
    ghost Value = { K };

    ghost view = { λ s. s.keeper };
}

impl<K: Keeper> Service<K> {
    /// A service over a keeper.
    pub fn new(keeper: K) -> Service<K>
        ensures { result ≡ keeper }
    {
        Service { keeper }
    }

    /// The keeper, spent or not.
    pub fn into_keeper(self) -> K
        ensures { result ≡ self }
    {
        let Service { keeper } = self;
        keeper
    }

    /// Whether the storage has failed; then every request is answered 500.
    pub fn spent(&self) -> bool
        ensures { result ≡ (K.kept self.now).spent }
    {
        self.keeper.spent()
    }

    /// Answers one request.
    ///
    /// The reply and the world afterwards are those of the definitions; or the reply is 503, where
    /// memory was wanting, and nothing has changed; or it is 500, and the service is spent. A request
    /// with no token is answered `TokenRequired` as long as the service is not spent, and, where clients
    /// log in, there is memory for the challenge. A reply that has the length of its content alone comes of
    /// HEAD.
    pub fn handle(&mut self, alloc: Global, request: &Request) -> Reply
        ensures does { K.is_honest self.new →
            Does (state_of (K.kept self.old)) (ask_of request.now) (answer_of result)
            (state_of (K.kept self.new)) }
        ensures holds { K.is_honest self.new → HeldStays (K.kept self.old) (K.kept self.new) }
        ensures carries { is_head request.now.method ≡ false → is_sent (answer_of result).body ≡ true }
        ensures spends { SpendsAs (course_of_answer (answer_of result))
            (state_of (K.kept self.old)) (state_of (K.kept self.new)) }
        ensures no_token { request.now.token ≡ None → request.now.resource ≡ Resource.Registry
            → request.now.settings.login ≡ None → (K.kept self.old).spent ≡ false →
            answer_of result ≡ refused TokenRequired }
        ensures honest { K.is_honest self.new → K.is_honest self.old }
    {
        answer(&mut self.keeper, alloc, request, WholeBody(request.body))
    }

    /// Answers a request whose body is told apart from it, as `handle` does on the bytes whose body it is.
    /// The request's own body is not looked at.
    ///
    /// Where a body is staged, of that stage nothing is known afterwards; all else that is held stays. Where
    /// it was not kept, and the answer takes its bytes, the reply is 503, and nothing has changed.
    ///
    /// Nothing is said of a stage that is not there, or that has another length than it is told to have.
    pub fn handle_with<B: RequestBody<K>>(
        &mut self,
        alloc: Global,
        request: &Request,
        body: B,
    ) -> Reply
        ensures does { K.is_honest self.new → (t : Text) → B.is_body body (K.kept self.old) t →
            Does (state_of (K.kept self.old)) (ask_with (ask_of request.now) t) (answer_of result)
            (state_of (K.kept self.new)) }
        ensures holds { K.is_honest self.new → (t : Text) → B.is_body body (K.kept self.old) t →
            HeldStays (from_body (B.stage body) (K.kept self.old) (K.kept self.new)) (K.kept self.new) }
        ensures carries { is_head request.now.method ≡ false → is_sent (answer_of result).body ≡ true }
        ensures spends { SpendsAs (course_of_answer (answer_of result))
            (state_of (K.kept self.old)) (state_of (K.kept self.new)) }
        ensures no_token { request.now.token ≡ None → request.now.resource ≡ Resource.Registry
            → request.now.settings.login ≡ None → (K.kept self.old).spent ≡ false →
            answer_of result ≡ refused TokenRequired }
        ensures honest { K.is_honest self.new → K.is_honest self.old }
    {
        answer(&mut self.keeper, alloc, request, body)
    }

    /// What each repository holds and may hold, in byte order of names, as `Keeper::usages` tells it.
    pub fn usages(&mut self, alloc: Global) -> Result<Vec<(RepoName, Usage)>, Fault>
        ensures found { K.is_honest self.new
            → ReadsBy usages_shown result (usages_of (K.kept self.old).world)
            (K.kept self.old) (K.kept self.new) }
        ensures spends { Spends result (K.kept self.old) (K.kept self.new) }
        ensures honest { K.is_honest self.new → K.is_honest self.old }
    {
        self.keeper.usages(alloc)
    }

    /// The tokens that have a level on a repository, in byte order, with their levels; none where it is not
    /// there.
    pub fn levels(&mut self, alloc: Global, name: &RepoName) -> Result<Vec<(Token, Level)>, Fault>
        ensures found { K.is_honest self.new
            → ReadsSo (λ v. AreLevelsOn (K.kept self.old).world name.now v.items) result
            (K.kept self.old) (K.kept self.new) }
        ensures spends { Spends result (K.kept self.old) (K.kept self.new) }
        ensures honest { K.is_honest self.new → K.is_honest self.old }
    {
        self.keeper.levels(alloc, name)
    }

    /// Each level of a token on a repository, in byte order of the repositories, and on each of the tokens.
    pub fn grants(&mut self, alloc: Global) -> Result<Vec<Grant>, Fault>
        ensures found { K.is_honest self.new → ReadsSo
            (λ v. let w = (K.kept self.old).world in AreLevelsOver w (repo_names_of w) v.items) result
            (K.kept self.old) (K.kept self.new) }
        ensures spends { Spends result (K.kept self.old) (K.kept self.new) }
        ensures honest { K.is_honest self.new → K.is_honest self.old }
    {
        self.keeper.grants(alloc)
    }

    /// The names of the repositories, in byte order.
    pub fn repo_names(&mut self, alloc: Global) -> Result<Vec<RepoName>, Fault>
        ensures found { K.is_honest self.new
            → ReadsBy names_shown result (repo_names_of (K.kept self.old).world)
            (K.kept self.old) (K.kept self.new) }
        ensures spends { Spends result (K.kept self.old) (K.kept self.new) }
        ensures honest { K.is_honest self.new → K.is_honest self.old }
    {
        self.keeper.repo_names(alloc)
    }

    /// Whether a repository is there.
    pub fn has_repo(&mut self, name: &RepoName) -> Result<bool, Fault>
        ensures found { K.is_honest self.new
            → Reads result (has_repo (K.kept self.old).world name.now)
            (K.kept self.old) (K.kept self.new) }
        ensures spends { Spends result (K.kept self.old) (K.kept self.new) }
        ensures honest { K.is_honest self.new → K.is_honest self.old }
    {
        self.keeper.has_repo(name)
    }

    /// The tags of a repository, in byte order, each with the digest that it names; none where it is not
    /// there.
    pub fn tags(&mut self, alloc: Global, name: &RepoName) -> Result<Vec<(Tag, Digest)>, Fault>
        ensures found { K.is_honest self.new
            → ReadsBy tags_shown result (tags_at (K.kept self.old).world name.now)
            (K.kept self.old) (K.kept self.new) }
        ensures spends { Spends result (K.kept self.old) (K.kept self.new) }
        ensures honest { K.is_honest self.new → K.is_honest self.old }
    {
        self.keeper.tags(alloc, name)
    }

    /// The digests of a repository's blobs, in byte order; none where it is not there.
    pub fn blob_digests(&mut self, alloc: Global, name: &RepoName) -> Result<Vec<Digest>, Fault>
        ensures found { K.is_honest self.new
            → ReadsBy digests_shown result (blob_digests_at (K.kept self.old).world name.now)
            (K.kept self.old) (K.kept self.new) }
        ensures spends { Spends result (K.kept self.old) (K.kept self.new) }
        ensures honest { K.is_honest self.new → K.is_honest self.old }
    {
        self.keeper.blob_digests(alloc, name)
    }

    /// The length of a blob of a repository in bytes.
    pub fn blob_size(&mut self, name: &RepoName, digest: &Digest) -> Result<Option<u64>, Fault>
        ensures found { K.is_honest self.new
            → Reads result (blob_size_at (K.kept self.old).world name.now digest.now)
            (K.kept self.old) (K.kept self.new) }
        ensures spends { Spends result (K.kept self.old) (K.kept self.new) }
        ensures honest { K.is_honest self.new → K.is_honest self.old }
    {
        self.keeper.blob_size(name, digest)
    }

    /// The digests of a repository's manifests, in byte order; none where it is not there.
    pub fn manifest_digests(&mut self, alloc: Global, name: &RepoName) -> Result<Vec<Digest>, Fault>
        ensures found { K.is_honest self.new
            → ReadsBy digests_shown result (manifest_digests_at (K.kept self.old).world name.now)
            (K.kept self.old) (K.kept self.new) }
        ensures spends { Spends result (K.kept self.old) (K.kept self.new) }
        ensures honest { K.is_honest self.new → K.is_honest self.old }
    {
        self.keeper.manifest_digests(alloc, name)
    }

    /// The digests of the blobs that a manifest of a repository names; none where it is not there.
    pub fn names(
        &mut self,
        alloc: Global,
        name: &RepoName,
        manifest: &Digest,
    ) -> Result<Vec<Digest>, Fault>
        ensures found { K.is_honest self.new
            → ReadsBy digests_shown result (names_at (K.kept self.old).world name.now manifest.now)
            (K.kept self.old) (K.kept self.new) }
        ensures spends { Spends result (K.kept self.old) (K.kept self.new) }
        ensures honest { K.is_honest self.new → K.is_honest self.old }
    {
        names_at(&mut self.keeper, alloc, name, manifest)
    }

    /// The digests of the blobs of a repository that none of its manifests names, in byte order: what a
    /// command takes away that prunes it. None where it is not there.
    pub fn unnamed(&mut self, alloc: Global, name: &RepoName) -> Result<Vec<Digest>, Fault>
        ensures found { K.is_honest self.new
            → ReadsBy digests_shown result (unnamed_at (K.kept self.old).world name.now)
            (K.kept self.old) (K.kept self.new) }
        ensures spends { Spends result (K.kept self.old) (K.kept self.new) }
        ensures honest { K.is_honest self.new → K.is_honest self.old }
    {
        unnamed(alloc, &mut self.keeper, name)
    }

    /// Carries out one command.
    ///
    /// A command that is refused, or for which memory was wanting, changes nothing.
    pub fn admin(&mut self, alloc: Global, command: &AdminCommand) -> Result<(), AdminFault>
        ensures does { K.is_honest self.new →
            CarriesOut (state_of (K.kept self.old)) command.now result (state_of (K.kept self.new)) }
        ensures holds { K.is_honest self.new → HeldStays (K.kept self.old) (K.kept self.new) }
        ensures spends { SpendsAs (course_of_result result)
            (state_of (K.kept self.old)) (state_of (K.kept self.new)) }
        ensures honest { K.is_honest self.new → K.is_honest self.old }
    {
        apply_command(alloc, &mut self.keeper, command)
    }
}

impl<H: Holder> Service<H> {
    /// Whether there is room for one more stage, as `Holder::has_room` tells it.
    pub fn has_room(&self, expected: u64) -> bool {
        self.keeper.has_room(expected)
    }

    /// Begins an empty stage under the number of a connection, as `Holder::stage` does.
    pub fn stage(&mut self, key: u64, expected: u64, with_sha512: bool) -> Result<(), AllocError>
        ensures stages { H.is_honest self.new
            → Stages result key (Some []) (H.kept self.old) (H.kept self.new) }
        ensures spent { (H.kept self.new).spent ≡ (H.kept self.old).spent }
        ensures honest { H.is_honest self.new → H.is_honest self.old }
    {
        self.keeper.stage(key, expected, with_sha512)
    }

    /// Puts bytes behind those of a stage, as `Holder::stage_more` does.
    pub fn stage_more(&mut self, key: u64, bytes: &[u8]) -> Result<(), AllocError>
        ensures stages { H.is_honest self.new → Stages result key
            (option_map (λ t. t ++ bytes.now) ((H.kept self.old).held.stages key))
            (H.kept self.old) (H.kept self.new) }
        ensures spent { (H.kept self.new).spent ≡ (H.kept self.old).spent }
        ensures honest { H.is_honest self.new → H.is_honest self.old }
    {
        self.keeper.stage_more(key, bytes)
    }

    /// Lets a stage go, as `Holder::unstage` does.
    pub fn unstage(&mut self, key: u64)
        ensures gone { H.is_honest self.new
            → H.kept self.new ≡ with_stage (H.kept self.old) key None }
        ensures spent { (H.kept self.new).spent ≡ (H.kept self.old).spent }
        ensures honest { H.is_honest self.new → H.is_honest self.old }
    {
        self.keeper.unstage(key);
    }
}
