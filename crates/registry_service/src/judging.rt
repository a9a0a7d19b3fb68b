ghost use Rattle.std.specs.Prelude.{◌≡◌, true, false, None, IsOkAnd};
ghost use Rattle.oci_types.specs.Text.{Text};
ghost use Rattle.registry_model.specs.Heads.{is_head, is_sent, is_sizing};
ghost use Rattle.registry_model.specs.declared.refusal.Refusal.TheVariants.{TokenRequired};
ghost use Rattle.registry_model.specs.World.{repo_at};
ghost use Rattle.registry_model.specs.Form.{form_of};
ghost use Rattle.registry_model.specs.Answer.{answer_of, refused};
ghost use Rattle.registry_model.specs.Ask.{ask_of, text_in};
ghost use Rattle.registry_model.specs.Operation.{addressed, operation_of, valid_name};
ghost use Rattle.registry_model.specs.Judging.{operate, not_allowed, at_base, granted, decide, decision, judged, reply_to, after_request};
ghost use Rattle.registry_model.specs.Keeping.{Spends, WritesBy};
ghost use Rattle.operation_parts.specs.Operating.{Comes, ComesOn, HasRepo, IsUnspent, Answers, Carries, OperatesWith};
ghost use Rattle.registry_service.specs.Operations.{shown_operation};
ghost use Rattle.registry_service.specs.Serving.{beside, name_at};
ghost use Rattle.registry_service.specs.Bodies.{from_body, ask_with};

use crate::body::RequestBody;
use crate::login::{ask_for_token, find_token, log_in, tell_health};
use crate::operation::{Operation, allowed_methods, allows, find_operation};
use blob_operations::blobs::{delete_blob, read_blob, size_blob};
use blob_operations::mounting::mount_blob;
use blob_operations::uploads::{open_session, read_session};
use manifest_operations::listing::list_tags;
use manifest_operations::manifests::{delete_manifest, read_manifest, size_manifest};
use manifest_operations::referrers::{list_referrers, size_referrers};
use oci_types::{Fault, NameFault, RepoName, Token};
use registry_model::{Body, Keeper, Refusal, Reply, Request, Resource, Route, Status, Verb};
use std::alloc::Global;

/// The reply to an operation in a repository that is there.
fn operate_there<K: Keeper, B: RequestBody<K>>(
    keeper: &mut K,
    alloc: Global,
    token: &Token,
    name: &RepoName,
    operation: Operation,
    body: B,
) -> Result<Reply, Fault>
    requires unspent { IsUnspent (K.kept keeper.old) }
    requires there { K.is_honest keeper.old → HasRepo (K.kept keeper.old) name.now }
    ensures comes { K.is_honest keeper.new → (t : Text) → B.is_body body (K.kept keeper.old) t
        → OperatesWith result name.now
        (λ w r. operate (w.grants token.now) (repo_at w) r name.now (shown_operation operation.entry) t)
        (from_body (B.stage body) (K.kept keeper.old) (K.kept keeper.new)) (K.kept keeper.new) }
    ensures answers { Answers result }
    ensures carries { is_sizing (shown_operation operation.entry) ≡ false → Carries result }
    ensures spends { Spends result (K.kept keeper.old) (K.kept keeper.new) }
    ensures honest { K.is_honest keeper.new → K.is_honest keeper.old }
{
    match operation {
        Operation::ReadBlob(digest) => read_blob(keeper, alloc, name, digest),
        Operation::SizeBlob(digest) => size_blob(keeper, alloc, name, digest),
        Operation::DeleteBlob(digest) => delete_blob(keeper, alloc, name, digest),
        Operation::PushBlob(digest) => body.push_blob(keeper, alloc, name, digest),
        Operation::OpenSession => open_session(keeper, alloc, name),
        Operation::MountBlob { digest, source } => {
            mount_blob(keeper, alloc, token, name, digest, source)
        }
        Operation::ReadSession(reference) => read_session(keeper, alloc, name, reference),
        Operation::AppendChunk { reference, range } => {
            body.append_chunk(keeper, alloc, name, reference, range)
        }
        Operation::CloseSession {
            reference,
            digest,
            range,
        } => body.close_session(keeper, alloc, name, reference, digest, range),
        Operation::ReadManifest(reference) => read_manifest(keeper, alloc, name, reference),
        Operation::SizeManifest(reference) => size_manifest(keeper, alloc, name, reference),
        Operation::DeleteManifest(reference) => delete_manifest(keeper, alloc, name, reference),
        Operation::PushManifest {
            reference,
            content_type,
        } => body.push_manifest(keeper, alloc, name, reference, content_type),
        Operation::ListTags { n, last } => list_tags(keeper, alloc, name, n, last),
        Operation::ListReferrers {
            digest,
            artifact_type,
        } => list_referrers(keeper, alloc, name, digest, artifact_type),
        Operation::SizeReferrers {
            digest,
            artifact_type,
        } => size_referrers(keeper, alloc, name, digest, artifact_type),
    }
}

/// The reply to an operation that the token may do.
fn operate<K: Keeper, B: RequestBody<K>>(
    keeper: &mut K,
    alloc: Global,
    token: &Token,
    name: &RepoName,
    operation: Operation,
    body: B,
) -> Result<Reply, Fault>
    ensures comes { K.is_honest keeper.new → (t : Text) → B.is_body body (K.kept keeper.old) t
        → OperatesWith result name.now
        (λ w r. operate (w.grants token.now) (repo_at w) r name.now (shown_operation operation.entry) t)
        (from_body (B.stage body) (K.kept keeper.old) (K.kept keeper.new)) (K.kept keeper.new) }
    ensures answers { Answers result }
    ensures carries { is_sizing (shown_operation operation.entry) ≡ false → Carries result }
    ensures spends { Spends result (K.kept keeper.old) (K.kept keeper.new) }
    ensures honest { K.is_honest keeper.new → K.is_honest keeper.old }
{
    if !keeper.has_repo(name)? {
        return Ok(Reply::refusal(Refusal::AccessDenied));
    }
    operate_there(keeper, alloc, token, name, operation, body)
}

/// The refusal that names the methods which the form has.
pub fn not_allowed(route: &Route) -> Reply
    ensures refusal { answer_of result ≡ (not_allowed (form_of route.now)).reply }
    ensures carries { is_sent (answer_of result).body ≡ true }
{
    let mut reply = Reply::refusal(Refusal::MethodNotAllowed);
    reply.allow = Some(allowed_methods(route));
    reply
}

/// The reply to a request in the repository of a name, by the method and the level.
fn decide_in<K: Keeper, B: RequestBody<K>>(
    keeper: &mut K,
    alloc: Global,
    token: &Token,
    name: &RepoName,
    request: &Request,
    body: B,
) -> Result<Reply, Fault>
    requires { IsUnspent (K.kept keeper.old) }
    ensures comes { K.is_honest keeper.new → (t : Text) → B.is_body body (K.kept keeper.old) t
        → Comes result name.now
        (granted ((K.kept keeper.old).world.grants token.now) (repo_at (K.kept keeper.old).world) name.now
        (form_of request.now.route) (operation_of (ask_of request.now)) t)
        (from_body (B.stage body) (K.kept keeper.old) (K.kept keeper.new)) (K.kept keeper.new) }
    ensures answers { Answers result }
    ensures carries { is_head request.now.method ≡ false → Carries result }
    ensures spends { Spends result (K.kept keeper.old) (K.kept keeper.new) }
    ensures honest { K.is_honest keeper.new → K.is_honest keeper.old }
{
    let Some(operation) = find_operation(request) else {
        return Ok(not_allowed(&request.route));
    };
    let level = keeper.level(token, name)?;
    if !allows(level, &operation) {
        return Ok(Reply::refusal(Refusal::AccessDenied));
    }
    operate(keeper, alloc, token, name, operation, body)
}

/// The reply to a request of a known token, by the name and what is asked in its repository.
fn decide<K: Keeper, B: RequestBody<K>>(
    keeper: &mut K,
    alloc: Global,
    token: &Token,
    name: &str,
    request: &Request,
    body: B,
) -> Result<Reply, Fault>
    requires { IsUnspent (K.kept keeper.old) }
    ensures comes { K.is_honest keeper.new → (t : Text) → B.is_body body (K.kept keeper.old) t
        → ComesOn result (valid_name name.now)
        (decide ((K.kept keeper.old).world.grants token.now) (repo_at (K.kept keeper.old).world) name.now
        (ask_with (ask_of request.now) t))
        (from_body (B.stage body) (K.kept keeper.old) (K.kept keeper.new)) (K.kept keeper.new) }
    ensures answers { Answers result }
    ensures carries { is_head request.now.method ≡ false → Carries result }
    ensures spends { Spends result (K.kept keeper.old) (K.kept keeper.new) }
    ensures honest { K.is_honest keeper.new → K.is_honest keeper.old }
{
    match RepoName::parse(alloc, name) {
        Ok(name) => decide_in(keeper, alloc, token, &name, request, body),
        Err(fault) => match fault {
            NameFault::Memory => Err(Fault::Memory),
            _ => Ok(Reply::refusal(Refusal::InvalidName)),
        },
    }
}

/// The reply to a known token that asks for the base.
fn base_reply(method: Verb) -> Reply
    ensures told { answer_of result ≡ (at_base method).reply }
    ensures carries { is_sent (answer_of result).body ≡ true }
{
    match method {
        Verb::Get | Verb::Head => {
            Reply::bare(Status::OK).with_content("application/json", Body::Constant("{}"))
        }
        _ => not_allowed(&Route::Base),
    }
}

/// The name of the repository that a path leads to.
fn name_at<'a>(route: &Route<'a>) -> Option<&'a str>
    ensures { text_in result ≡ name_at (form_of route.now) }
{
    match route {
        Route::NoForm => None,
        Route::Base => None,
        Route::Blob { name, .. } => Some(name),
        Route::Uploads { name } => Some(name),
        Route::Session { name, .. } => Some(name),
        Route::Manifest { name, .. } => Some(name),
        Route::Tags { name } => Some(name),
        Route::Referrers { name, .. } => Some(name),
    }
}

/// The reply to a known token where the path leads to no repository.
fn reply_beside(route: &Route, method: Verb) -> Reply
    ensures told { answer_of result ≡ (beside (form_of route.now) method).reply }
    ensures carries { is_sent (answer_of result).body ≡ true }
{
    match route {
        Route::Base => base_reply(method),
        _ => Reply::refusal(Refusal::NoEndpoint),
    }
}

/// The reply to a request of a token, known or not.
fn serve_token<K: Keeper, B: RequestBody<K>>(
    keeper: &mut K,
    alloc: Global,
    token: &Token,
    request: &Request,
    body: B,
) -> Result<Reply, Fault>
    requires { IsUnspent (K.kept keeper.old) }
    ensures comes { K.is_honest keeper.new → (t : Text) → B.is_body body (K.kept keeper.old) t
        → ComesOn result (addressed (form_of request.now.route))
        (decision ((K.kept keeper.old).world.grants token.now) (repo_at (K.kept keeper.old).world)
        (ask_with (ask_of request.now) t))
        (from_body (B.stage body) (K.kept keeper.old) (K.kept keeper.new)) (K.kept keeper.new) }
    ensures answers { Answers result }
    ensures carries { is_head request.now.method ≡ false → Carries result }
    ensures spends { Spends result (K.kept keeper.old) (K.kept keeper.new) }
    ensures honest { K.is_honest keeper.new → K.is_honest keeper.old }
{
    if !keeper.known(token)? {
        return ask_for_token(alloc, request);
    }
    match name_at(&request.route) {
        Some(name) => decide(keeper, alloc, token, name, request, body),
        None => Ok(reply_beside(&request.route, request.method)),
    }
}

/// The reply to a request of an endpoint of the registry.
fn judge_by_token<K: Keeper, B: RequestBody<K>>(
    keeper: &mut K,
    alloc: Global,
    request: &Request,
    body: B,
) -> Result<Reply, Fault>
    requires { IsUnspent (K.kept keeper.old) }
    ensures comes { K.is_honest keeper.new → (t : Text) → B.is_body body (K.kept keeper.old) t
        → ComesOn result (addressed (form_of request.now.route))
        (judged (K.kept keeper.old).world (text_in request.now.token) (ask_with (ask_of request.now) t))
        (from_body (B.stage body) (K.kept keeper.old) (K.kept keeper.new)) (K.kept keeper.new) }
    ensures answers { Answers result }
    ensures carries { is_head request.now.method ≡ false → Carries result }
    ensures spends { Spends result (K.kept keeper.old) (K.kept keeper.new) }
    ensures no_token { request.now.token ≡ None → request.now.settings.login ≡ None →
        IsOkAnd result (λ r. answer_of r ≡ refused TokenRequired) }
    ensures honest { K.is_honest keeper.new → K.is_honest keeper.old }
{
    match find_token(alloc, request.token)? {
        Some(token) => serve_token(keeper, alloc, &token, request, body),
        None => ask_for_token(alloc, request),
    }
}

/// The reply to a request with this body, whatever the request has, or why there is none.
pub fn judge<K: Keeper, B: RequestBody<K>>(
    keeper: &mut K,
    alloc: Global,
    request: &Request,
    body: B,
) -> Result<Reply, Fault>
    ensures comes { K.is_honest keeper.new → (t : Text) → B.is_body body (K.kept keeper.old) t
        → WritesBy answer_of result
        (reply_to (K.kept keeper.old).world (ask_with (ask_of request.now) t))
        (after_request (K.kept keeper.old).world (ask_with (ask_of request.now) t))
        (from_body (B.stage body) (K.kept keeper.old) (K.kept keeper.new)) (K.kept keeper.new) }
    ensures answers { Answers result }
    ensures carries { is_head request.now.method ≡ false → Carries result }
    ensures spends { Spends result (K.kept keeper.old) (K.kept keeper.new) }
    ensures no_token { request.now.token ≡ None → request.now.resource ≡ Resource.Registry
        → request.now.settings.login ≡ None → IsUnspent (K.kept keeper.old) →
        IsOkAnd result (λ r. answer_of r ≡ refused TokenRequired) }
    ensures honest { K.is_honest keeper.new → K.is_honest keeper.old }
{
    if keeper.spent() {
        return Err(Fault::Storage);
    }
    match request.resource {
        Resource::Registry => judge_by_token(keeper, alloc, request, body),
        Resource::Tokens => log_in(alloc, request.method, request.basic),
        Resource::Health => Ok(tell_health(request.method)),
    }
}
