//! Worked answers: what single requests come to, written out. Each is the contract of a function
//! that does nothing; `specs/Worked.antt` has the setting.

ghost use Rattle.std.specs.Prelude.{◌≡◌, [], ◌∷◌, true, false, Some, None, codes, replicate};
ghost use Rattle.std.specs.FinMap.{empty, insert, len};
ghost use Rattle.oci_types.specs.Text.{Text};
ghost use Rattle.oci_types.specs.Digest.{matches};
ghost use Rattle.oci_types.specs.RepoName.{is_repo_name};
ghost use Rattle.oci_types.specs.Tags.{tags_line};
ghost use Rattle.registry_model.specs.World.{World, Repo, repo_at, level_at, no_world, new_repo, with_repo};
ghost use Rattle.registry_model.specs.Answer.{bare_answer, sent, unsent};
ghost use Rattle.registry_model.specs.Form.{form_at, no_form, base, blob, uploads, session, manifest, tags, referrers};
ghost use Rattle.registry_model.specs.Login.{profile};
ghost use Rattle.registry_model.specs.Ask.{Ask};
ghost use Rattle.registry_model.specs.Blobs.{without_blob};
ghost use Rattle.registry_model.specs.Manifests.{without_manifest};
ghost use Rattle.registry_model.specs.Command.{grant};
ghost use Rattle.registry_model.specs.Judging.{reply_to, after_request};
ghost use Rattle.registry_model.specs.Worked.{app, t1, Setting, abc_digest, hello_digest, md5_digest, holding_abc, in_session, four_tags, two_tags, no_keys, asks, pushes, mounts, patches, closes, lists_tags, json, created_at, session_1, token_required, blob_unknown, quota_exceeded, digest_does_not_match, invalid_digest, range_out_of_order, invalid_content_range, range_does_not_match_body, too_many_uploads, upload_unknown, invalid_page_size, access_denied, invalid_repository_name, no_such_endpoint, method_not_allowed, invalid_reference, manifest_unknown, abc_location, hello_location, next_page, index_type, no_referrers};

use crate::{Level, Resource, Status, Verb};

/// A world of the setting can be made around any repository.
pub fn the_setting_can_be_made()
    ensures { (r : Repo) → Setting (grant (with_repo no_world app r) t1 app Level.Delete) r }
{}

/// The base is there for a token that is known, and for no other.
pub fn the_base_is_there_for_known_tokens()
    ensures known { (w : World) (r : Repo) → Setting w r
        → reply_to w (asks Verb.Get base no_keys []) ≡ json Status.OK (codes "{}") }
    ensures unknown { (w : World) (q : Ask) → w.grants (codes "t9") ≡ empty
        → reply_to w
        (record q { settings = profile; resource = Resource.Registry; token = Some (codes "t9") })
        ≡ record (json Status.Unauthorized token_required)
        { challenge = Some (codes "Bearer realm=\"registry\"") } }
    ensures without { (w : World) (q : Ask)
        → reply_to w (record q { settings = profile; resource = Resource.Registry; token = None })
        ≡ record (json Status.Unauthorized token_required)
        { challenge = Some (codes "Bearer realm=\"registry\"") } }
{}

/// A blob that is pushed to an empty repository is there from then on, under its own location.
pub fn a_blob_is_pushed_and_pulled()
    ensures pushed { (w : World) → Setting w (new_repo 1000) → matches abc_digest (codes "abc") ≡ true
        → reply_to w (pushes abc_digest (codes "abc"))
        ≡ created_at abc_location abc_digest }
    ensures kept { (w : World) → Setting w (new_repo 1000) → matches abc_digest (codes "abc") ≡ true
        → after_request w (pushes abc_digest (codes "abc")) ≡ with_repo w app (holding_abc 1000) }
    ensures pulled { (w : World) → Setting w (holding_abc 1000)
        → reply_to w (asks Verb.Get (blob app abc_digest) no_keys [])
        ≡ record (bare_answer Status.OK) {
          digest = Some abc_digest;
          content_type = Some (codes "application/octet-stream");
          body = sent (codes "abc");
        } }
    ensures sized { (w : World) → Setting w (holding_abc 1000)
        → reply_to w (asks Verb.Head (blob app abc_digest) no_keys [])
        ≡ record (bare_answer Status.OK) {
          digest = Some abc_digest;
          content_type = Some (codes "application/octet-stream");
          body = unsent 3;
        } }
    ensures absent { (w : World) → Setting w (new_repo 1000)
        → reply_to w (asks Verb.Get (blob app abc_digest) no_keys [])
        ≡ json Status.NotFound blob_unknown }
{}

/// A push is refused under a digest of other bytes, under one of an algorithm that is not verified,
/// and one byte past the quota; what is there already is pushed again under any quota.
pub fn a_push_keeps_to_its_digest_and_quota()
    ensures exact { (w : World) → Setting w (new_repo 3) → matches abc_digest (codes "abc") ≡ true
        → reply_to w (pushes abc_digest (codes "abc"))
        ≡ created_at abc_location abc_digest }
    ensures over { (w : World) → Setting w (new_repo 2) → matches abc_digest (codes "abc") ≡ true
        → reply_to w (pushes abc_digest (codes "abc"))
        ≡ json Status.Forbidden quota_exceeded }
    ensures again { (w : World) → Setting w (holding_abc 2) → matches abc_digest (codes "abc") ≡ true
        → reply_to w (pushes abc_digest (codes "abc"))
        ≡ created_at abc_location abc_digest }
    ensures other { (w : World) (r : Repo) → Setting w r → matches hello_digest (codes "abc") ≡ false
        → reply_to w (pushes hello_digest (codes "abc"))
        ≡ json Status.BadRequest digest_does_not_match }
    ensures unverified { (w : World) (r : Repo) → Setting w r → reply_to w (pushes md5_digest (codes "abc"))
        ≡ json Status.BadRequest invalid_digest }
{}

/// A mount takes the blob of a repository on which the token has any level; from a repository on
/// which it has none it opens a session, whether or not the blob is there.
pub fn a_mount_wants_a_level_on_its_source()
    ensures mounted { (w : World) → Setting w (new_repo 1000)
        → level_at w t1 (codes "team/lib") ≡ Some Level.Pull
        → repo_at w (codes "team/lib") ≡ Some (holding_abc 1000)
        → reply_to w (mounts abc_digest (codes "team/lib")) ≡ created_at abc_location abc_digest }
    ensures hidden { (w : World) → Setting w (new_repo 1000) → level_at w t1 (codes "other") ≡ None
        → reply_to w (mounts abc_digest (codes "other")) ≡ session_1 Status.Accepted (codes "0-0") }
    ensures no_digest { (w : World) (r : Repo) → Setting w r
        → reply_to w (mounts (codes "sha256:12") (codes "team/lib"))
        ≡ json Status.BadRequest invalid_digest }
{}

/// A chunk stands where its session ends, and its range has its length.
pub fn chunks_follow_one_another()
    ensures first { (w : World) → Setting w (in_session [])
        → reply_to w (patches (codes "0-2") (codes "hel")) ≡ session_1 Status.Accepted (codes "0-2") }
    ensures spelled { (w : World) → Setting w (in_session [])
        → reply_to w (patches (codes "bytes 0-2/*") (codes "hel")) ≡ session_1 Status.Accepted (codes "0-2") }
    ensures repeated { (w : World) → Setting w (in_session (codes "hel"))
        → reply_to w (patches (codes "0-2") (codes "hel"))
        ≡ record (json Status.RangeNotSatisfiable range_out_of_order)
        { location = Some (codes "/v2/team/app/blobs/uploads/1"); range = Some (codes "0-2") } }
    ensures status { (w : World) → Setting w (in_session (codes "hel"))
        → reply_to w (asks Verb.Get (session app (codes "1")) no_keys [])
        ≡ session_1 Status.NoContent (codes "0-2") }
    ensures next { (w : World) → Setting w (in_session (codes "hel"))
        → reply_to w (patches (codes "3-4") (codes "lo")) ≡ session_1 Status.Accepted (codes "0-4") }
    ensures rangeless { (w : World) → Setting w (in_session (codes "hel"))
        → reply_to w (asks Verb.Patch (session app (codes "1")) no_keys (codes "lo"))
        ≡ session_1 Status.Accepted (codes "0-4") }
    ensures no_end { (w : World) → Setting w (in_session []) → reply_to w (patches (codes "0-") (codes "hel"))
        ≡ json Status.BadRequest invalid_content_range }
    ensures backwards { (w : World) → Setting w (in_session [])
        → reply_to w (patches (codes "2-1") (codes "hel"))
        ≡ json Status.BadRequest invalid_content_range }
    ensures longer { (w : World) → Setting w (in_session [])
        → reply_to w (patches (codes "0-3") (codes "hel"))
        ≡ json Status.BadRequest range_does_not_match_body }
{}

/// A session opens under the next number, unless 1,000 are open or the last number was the largest;
/// its number is a decimal without leading zeros.
pub fn sessions_are_numbered()
    ensures first { (w : World) → Setting w (new_repo 1000)
        → reply_to w (asks Verb.Post (uploads app) no_keys []) ≡ session_1 Status.Accepted (codes "0-0") }
    ensures opened { (w : World) → Setting w (new_repo 1000)
        → after_request w (asks Verb.Post (uploads app) no_keys []) ≡ with_repo w app (in_session []) }
    ensures many { (w : World) (r : Repo) → Setting w r → len r.sessions ≡ 1000
        → reply_to w (asks Verb.Post (uploads app) no_keys [])
        ≡ json Status.TooManyRequests too_many_uploads }
    ensures last { (w : World) (r : Repo) → Setting w r → r.last ≡ 9223372036854775807
        → reply_to w (asks Verb.Post (uploads app) no_keys [])
        ≡ json Status.TooManyRequests too_many_uploads }
    ensures leading_zero { (w : World) (r : Repo) → Setting w r
        → reply_to w (asks Verb.Get (session app (codes "01")) no_keys [])
        ≡ json Status.NotFound upload_unknown }
    ensures zero { (w : World) (r : Repo) → Setting w r
        → reply_to w (asks Verb.Get (session app (codes "0")) no_keys [])
        ≡ json Status.NotFound upload_unknown }
    ensures unopened { (w : World) → Setting w (in_session [])
        → reply_to w (asks Verb.Get (session app (codes "2")) no_keys [])
        ≡ json Status.NotFound upload_unknown }
{}

/// A session whose bytes match the digest is a blob from then on, and gone; else it stays.
pub fn a_session_closes_as_a_blob()
    ensures closed { (w : World) → Setting w (in_session (codes "hello"))
        → matches hello_digest (codes "hello") ≡ true → reply_to w (closes (Some hello_digest))
        ≡ created_at hello_location hello_digest }
    ensures kept { (w : World) → Setting w (in_session (codes "hello"))
        → matches hello_digest (codes "hello") ≡ true
        → after_request w (closes (Some hello_digest))
        ≡ with_repo w app
        (record (new_repo 1000) { blobs = insert empty hello_digest (codes "hello"); last = 1 }) }
    ensures other { (w : World) → Setting w (in_session (codes "hello"))
        → matches abc_digest (codes "hello") ≡ false → reply_to w (closes (Some abc_digest))
        ≡ json Status.BadRequest digest_does_not_match }
    ensures without { (w : World) → Setting w (in_session (codes "hello")) → reply_to w (closes None)
        ≡ json Status.BadRequest invalid_digest }
{}

/// Tags are listed in byte order, in pages that say where the next one begins.
pub fn tags_come_in_pages()
    ensures all { (w : World) → Setting w four_tags
        → reply_to w (lists_tags None None)
        ≡ json Status.OK (tags_line app (codes "B" ∷ codes "a" ∷ codes "b" ∷ codes "v1" ∷ [])) }
    ensures first { (w : World) → Setting w four_tags → reply_to w (lists_tags (Some (codes "2")) None)
        ≡ record (json Status.OK (tags_line app (codes "B" ∷ codes "a" ∷ []))) { link = Some next_page } }
    ensures leading_zero { (w : World) → Setting w four_tags
        → reply_to w (lists_tags (Some (codes "02")) None)
        ≡ record (json Status.OK (tags_line app (codes "B" ∷ codes "a" ∷ []))) { link = Some next_page } }
    ensures second { (w : World) → Setting w four_tags
        → reply_to w (lists_tags (Some (codes "2")) (Some (codes "a")))
        ≡ json Status.OK (tags_line app (codes "b" ∷ codes "v1" ∷ [])) }
    ensures behind_no_tag { (w : World) → Setting w four_tags
        → reply_to w (lists_tags (Some (codes "2")) (Some (codes "a0")))
        ≡ json Status.OK (tags_line app (codes "b" ∷ codes "v1" ∷ [])) }
    ensures empty_page { (w : World) → Setting w four_tags
        → reply_to w (lists_tags (Some (codes "0")) None) ≡ json Status.OK (tags_line app []) }
    ensures whole { (w : World) → Setting w four_tags
        → reply_to w (lists_tags (Some (codes "4")) None)
        ≡ json Status.OK (tags_line app (codes "B" ∷ codes "a" ∷ codes "b" ∷ codes "v1" ∷ [])) }
    ensures no_number { (w : World) (r : Repo) → Setting w r → reply_to w (lists_tags (Some (codes "x")) None)
        ≡ json Status.BadRequest invalid_page_size }
{}

/// A name on which the token has no level is refused alike, whatever stands under it; a name of 256
/// bytes is none; a method that the path has not is told with those that it has.
pub fn refusals_come_in_order()
    ensures hidden { (w : World) (r : Repo) (name : Text) → Setting w r → is_repo_name name ≡ true
        → level_at w t1 name ≡ None → reply_to w (asks Verb.Get (tags name) no_keys [])
        ≡ json Status.Forbidden access_denied }
    ensures pull_pushes_nothing { (w : World) → level_at w t1 app ≡ Some Level.Pull
        → reply_to w (asks Verb.Post (uploads app) no_keys [])
        ≡ json Status.Forbidden access_denied }
    ensures push_deletes_nothing { (w : World) → level_at w t1 app ≡ Some Level.Push
        → reply_to w (asks Verb.Delete (blob app abc_digest) no_keys [])
        ≡ json Status.Forbidden access_denied }
    ensures no_name { (w : World) (r : Repo) → Setting w r
        → reply_to w (asks Verb.Get (tags (replicate 256 97)) no_keys [])
        ≡ json Status.BadRequest invalid_repository_name }
    ensures no_endpoint { (w : World) (r : Repo) → Setting w r → reply_to w (asks Verb.Get no_form no_keys [])
        ≡ json Status.NotFound no_such_endpoint }
    ensures not_of_tags { (w : World) (r : Repo) → Setting w r
        → reply_to w (asks Verb.Delete (tags app) no_keys [])
        ≡ record (json Status.MethodNotAllowed method_not_allowed) { allow = Some (codes "GET, HEAD") } }
    ensures not_of_base { (w : World) (r : Repo) → Setting w r → reply_to w (asks Verb.Post base no_keys [])
        ≡ record (json Status.MethodNotAllowed method_not_allowed) { allow = Some (codes "GET, HEAD") } }
{}

/// A manifest is pushed to a tag, or to the digest of its bytes.
pub fn manifests_are_pushed_by_reference()
    ensures no_tag { (w : World) (r : Repo) (body : Text) → Setting w r
        → reply_to w (asks Verb.Put (manifest app (codes "-x")) no_keys body)
        ≡ json Status.BadRequest invalid_reference }
    ensures long_tag { (w : World) (r : Repo) (body : Text) → Setting w r
        → reply_to w (asks Verb.Put (manifest app (replicate 129 97)) no_keys body)
        ≡ json Status.BadRequest invalid_reference }
    ensures unverified { (w : World) (r : Repo) → Setting w r
        → reply_to w (asks Verb.Put (manifest app md5_digest) no_keys (codes "{}"))
        ≡ json Status.BadRequest invalid_digest }
    ensures other { (w : World) (r : Repo) → Setting w r → matches abc_digest (codes "{}") ≡ false
        → reply_to w (asks Verb.Put (manifest app abc_digest) no_keys (codes "{}"))
        ≡ json Status.BadRequest digest_does_not_match }
{}

/// What is deleted is gone, and with a manifest each tag on it.
pub fn deletions_take_away()
    ensures blob_goes { (w : World) → Setting w (holding_abc 1000)
        → reply_to w (asks Verb.Delete (blob app abc_digest) no_keys []) ≡ bare_answer Status.Accepted }
    ensures blob_gone { (w : World) → Setting w (without_blob (holding_abc 1000) abc_digest)
        → reply_to w (asks Verb.Delete (blob app abc_digest) no_keys [])
        ≡ json Status.NotFound blob_unknown }
    ensures manifest_goes { (w : World) (bytes : Text) → Setting w (two_tags bytes)
        → reply_to w (asks Verb.Delete (manifest app abc_digest) no_keys []) ≡ bare_answer Status.Accepted }
    ensures manifest_gone { (w : World) (bytes : Text)
        → Setting w (without_manifest (two_tags bytes) abc_digest)
        → reply_to w (asks Verb.Delete (manifest app abc_digest) no_keys [])
        ≡ json Status.NotFound manifest_unknown }
    ensures tag_gone { (w : World) (bytes : Text) → Setting w (without_manifest (two_tags bytes) abc_digest)
        → reply_to w (asks Verb.Get (manifest app (codes "v2")) no_keys [])
        ≡ json Status.NotFound manifest_unknown }
    ensures no_reference { (w : World) (r : Repo) → Setting w r
        → reply_to w (asks Verb.Get (manifest app (codes "-x")) no_keys [])
        ≡ json Status.NotFound manifest_unknown }
{}

/// A digest on which no manifest stands has the empty index of referrers, of which HEAD tells the
/// length; a text that is no digest has none.
pub fn referrers_are_listed()
    ensures none { (w : World) → Setting w (new_repo 1000)
        → reply_to w (asks Verb.Get (referrers app abc_digest) no_keys [])
        ≡ record (bare_answer Status.OK) { content_type = Some index_type; body = sent no_referrers } }
    ensures filtered { (w : World) → Setting w (new_repo 1000)
        → reply_to w
        (asks Verb.Get (referrers app abc_digest)
        (record no_keys { artifact_type = Some (codes "application/x.sbom") }) [])
        ≡ record (bare_answer Status.OK)
        { filters = Some (codes "artifactType"); content_type = Some index_type; body = sent no_referrers } }
    ensures sized { (w : World) → Setting w (new_repo 1000)
        → reply_to w (asks Verb.Head (referrers app abc_digest) no_keys [])
        ≡ record (bare_answer Status.OK) { content_type = Some index_type; body = unsent 88 } }
    ensures no_digest { (w : World) (r : Repo) → Setting w r
        → reply_to w (asks Verb.Get (referrers app (codes "sha256:12")) no_keys [])
        ≡ json Status.BadRequest invalid_digest }
{}

/// The forms of some paths.
pub fn paths_have_forms()
    ensures nested { form_at (codes "/v2/a/blobs/uploads/manifests/x")
        ≡ manifest (codes "a/blobs/uploads") (codes "x") }
    ensures nameless { form_at (codes "/v2/tags/list") ≡ tags [] }
    ensures none { form_at (codes "/v2/team/app/tags") ≡ no_form }
    ensures of_session { form_at (codes "/v2/team/app/blobs/uploads/1") ≡ session app (codes "1") }
    ensures of_uploads { form_at (codes "/v2/team/app/blobs/uploads/") ≡ uploads app }
    ensures of_base { form_at (codes "/v2") ≡ base }
{}
