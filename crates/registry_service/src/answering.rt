ghost use Rattle.std.specs.Prelude.{◌≡◌, true, false, None};
ghost use Rattle.oci_types.specs.Text.{Text};
ghost use Rattle.registry_model.specs.Heads.{is_head, is_sent};
ghost use Rattle.registry_model.specs.declared.refusal.Refusal.TheVariants.{TokenRequired};
ghost use Rattle.registry_model.specs.Answer.{answer_of, refused};
ghost use Rattle.registry_model.specs.Ask.{ask_of};
ghost use Rattle.registry_model.specs.Doing.{Does, SpendsAs, course_of_answer};
ghost use Rattle.registry_model.specs.Keeping.{HeldStays, state_of};
ghost use Rattle.registry_service.specs.Bodies.{ask_with, from_body};

use crate::body::RequestBody;
use crate::judging::judge;
use oci_types::Fault;
use registry_model::{Keeper, Reply, Request, Resource};
use std::alloc::Global;

/// The reply to a request with this body, whatever the request has: 503 where memory was wanting, and 500
/// where the storage has failed.
pub fn answer<K: Keeper, B: RequestBody<K>>(
    keeper: &mut K,
    alloc: Global,
    request: &Request,
    body: B,
) -> Reply
    ensures does { K.is_honest keeper.new → (t : Text) → B.is_body body (K.kept keeper.old) t →
        Does (state_of (K.kept keeper.old)) (ask_with (ask_of request.now) t) (answer_of result)
        (state_of (K.kept keeper.new)) }
    ensures holds { K.is_honest keeper.new → (t : Text) → B.is_body body (K.kept keeper.old) t →
        HeldStays (from_body (B.stage body) (K.kept keeper.old) (K.kept keeper.new)) (K.kept keeper.new) }
    ensures carries { is_head request.now.method ≡ false → is_sent (answer_of result).body ≡ true }
    ensures spends { SpendsAs (course_of_answer (answer_of result))
        (state_of (K.kept keeper.old)) (state_of (K.kept keeper.new)) }
    ensures no_token { request.now.token ≡ None → request.now.resource ≡ Resource.Registry
        → request.now.settings.login ≡ None → (K.kept keeper.old).spent ≡ false →
        answer_of result ≡ refused TokenRequired }
    ensures honest { K.is_honest keeper.new → K.is_honest keeper.old }
{
    match judge(keeper, alloc, request, body) {
        Ok(reply) => reply,
        Err(Fault::Memory) => Reply::busy(),
        Err(Fault::Storage) => Reply::failed(),
    }
}
