//! Laws of the definitions, each the contract of a function that does nothing: the crates above cite
//! them.

ghost use Rattle.std.specs.Prelude.{◌≡◌, ◌≢◌, ◌≤◌, ℕ, true, false, List, [], ◌∷◌, All, Some, None, Ok, is_some, option_map, length, take};
ghost use Rattle.oci_types.specs.Text.{Text};
ghost use Rattle.oci_types.specs.Manifest.{ManifestShown, manifest_in};
ghost use Rattle.registry_model.specs.World.{World, Grants, Repo, repo_at};
ghost use Rattle.registry_model.specs.declared.level.Level.{Level};
ghost use Rattle.registry_model.specs.declared.grant.Grant.{Grant};
ghost use Rattle.registry_model.specs.Lookups.{AreLevelsOn, AreLevelsOver};
ghost use Rattle.registry_model.specs.Ask.{Ask};
ghost use Rattle.registry_model.specs.Limits.{largest, largest_blob, largest_manifest, most_sessions};
ghost use Rattle.registry_model.specs.declared.limits.TheConstants.{LARGEST_BLOB, LARGEST_MANIFEST, MOST_SESSIONS, LARGEST_QUOTA};
ghost use Rattle.registry_model.specs.Heads.{as_head, as_get, without_content};
ghost use Rattle.registry_model.specs.Login.{profile, login_answer, health_answer};
ghost use Rattle.registry_model.specs.Decision.{refuses};
ghost use Rattle.registry_model.specs.Judging.{decision, judged, decided, unnamed, read_alone, reply_to, after_request};
ghost use Rattle.registry_model.specs.Command.{after_command};
ghost use Rattle.registry_model.specs.Manifests.{has_needs};
ghost use Rattle.registry_model.specs.Pruning.{is_named, pruned, prune};
ghost use Rattle.registry_model.specs.declared.admin.AdminCommand.{AdminCommand};
ghost use Rattle.registry_model.specs.State.{State};
ghost use Rattle.registry_model.specs.Team.{Team, IsTeamOf, team_of_token, view, Step, asks, orders, is_own, OwnOrAside};
ghost use Rattle.registry_model.specs.Runs.{Outcome, TakesAll, RunSays, kept, requests_of, asked, answers_to, NoneMissed, IsToldAlone};
ghost use Rattle.std.specs.Prelude.{Option};
ghost use Rattle.std.specs.FinMap.{get};

use crate::{Refusal, Resource};

/// A reply, and what it changes, are told by the token's grants and the repositories of granted
/// names alone: look-ups that agree on these give one decision.
pub fn a_decision_sees_granted_names_alone()
    ensures { (g : Grants) (repos others : Text → Option Repo)
        → ((name : Text) → is_some (get g name) ≡ true → repos name ≡ others name)
        → (q : Ask) → decision g repos q ≡ decision g others q }
{}

/// A request by HEAD is answered as it is by GET, without the content but for its length (RFC 9110,
/// section 9.3.2), and makes the same of the world.
pub fn head_is_get_without_its_content()
    ensures reply { (w : World) (q : Ask)
        → without_content (reply_to w (as_head q)) ≡ without_content (reply_to w (as_get q)) }
    ensures world { (w : World) (q : Ask) → after_request w (as_head q) ≡ after_request w (as_get q) }
{}

/// The limits that callers know are the numbers of the definitions.
pub fn limits_are_these()
    ensures blob { LARGEST_BLOB ≡ largest_blob }
    ensures manifest { LARGEST_MANIFEST ≡ largest_manifest }
    ensures sessions { MOST_SESSIONS ≡ most_sessions }
    ensures quota { LARGEST_QUOTA ≡ largest }
{}

/// With the profile's settings a request is answered, and does, what it did where there was nothing to
/// choose: its decision is the registry's, and who has no known token is refused with the one challenge.
pub fn settings_change_nothing_by_default()
    ensures registry { (w : World) (q : Ask) → q.resource ≡ Resource.Registry
        → decided w q ≡ judged w q.token q }
    ensures unnamed { (q : Ask) → q.settings ≡ profile → unnamed q ≡ refuses Refusal.TokenRequired }
{}

/// What is told where clients log in depends on the request alone, and so does what tells that a service goes
/// on; neither changes anything.
pub fn what_is_beside_the_registry_sees_none_of_it()
    ensures told { (w : World) (q : Ask) → q.resource ≡ Resource.Tokens
        → reply_to w q ≡ (read_alone q.verb (login_answer q.basic)).reply }
    ensures well { (w : World) (q : Ask) → q.resource ≡ Resource.Health
        → reply_to w q ≡ (read_alone q.verb health_answer).reply }
    ensures same { (w : World) (q : Ask) → (q.resource ≡ Resource.Registry → ⊥) → after_request w q ≡ w }
{}

/// A team's own request gets the same reply in the world and in what the team sees of it.
pub fn an_own_request_is_answered_from_the_view()
    ensures { (w : World) (team : Team) (q : Ask) → IsTeamOf w team → is_own team q.token ≡ true
        → reply_to w q ≡ reply_to (view w team) q }
{}

/// What the team sees after its own request is what follows from what it saw.
pub fn an_own_request_changes_the_view_alike()
    ensures { (w : World) (team : Team) (q : Ask) → IsTeamOf w team → is_own team q.token ≡ true
        → view (after_request w q) team ≡ after_request (view w team) q }
{}

/// A step that is aside of a team leaves what the team sees: a request that addresses no name of the
/// team, or reads, or is under a token that may not push there, and a command on other names or
/// tokens.
pub fn a_step_aside_leaves_the_view()
    ensures request { (w : World) (team : Team) (q : Ask) → IsTeamOf w team → is_own team q.token ≡ false
        → OwnOrAside w (asks q ∷ []) team (asks q) → view (after_request w q) team ≡ view w team }
    ensures command { (w : World) (team : Team) (a : AdminCommand) → IsTeamOf w team
        → OwnOrAside w (orders a ∷ []) team (orders a) → view (after_command w a) team ≡ view w team }
{}

/// Pruning changes one repository, and of that its blobs alone. A blob that some manifest of the
/// repository names stays as it is, and no other is left; so each manifest has of what it needs what
/// it had before.
pub fn pruning_keeps_what_is_named()
    ensures kept { (r : Repo) (digest : Text) → is_named r digest ≡ true
        → get (pruned r).blobs digest ≡ get r.blobs digest }
    ensures gone { (r : Repo) (digest : Text) → is_named r digest ≡ false
        → get (pruned r).blobs digest ≡ None }
    ensures needs { (r : Repo) (digest bytes : Text) (shown : ManifestShown)
        → get r.manifests digest ≡ Some bytes → manifest_in bytes ≡ Ok shown
        → has_needs (pruned r) shown.needs ≡ has_needs r shown.needs }
    ensures here { (w : World) (name : Text)
        → repo_at (prune w name) name ≡ option_map pruned (repo_at w name) }
    ensures elsewhere { (w : World) (name other : Text) → name ≢ other
        → repo_at (prune w name) other ≡ repo_at w other }
    ensures grants { (w : World) (name : Text) → (prune w name).grants ≡ w.grants }
{}

/// The tokens with a level on a repository are one list: what is asked of it says it whole.
pub fn levels_are_one_list()
    ensures { (w : World) (name : Text) (levels others : List (Text × Level))
        → AreLevelsOn w name levels → AreLevelsOn w name others → levels ≡ others }
{}

/// The levels on repositories, one repository after the other, are one list.
pub fn grants_are_one_list()
    ensures { (w : World) (names : List Text) (grants others : List Grant)
        → AreLevelsOver w names grants → AreLevelsOver w names others → grants ≡ others }
{}

/// Steps one after the other: one outcome for each, the definitions' up to a storage failure, and to
/// each team whose steps are its own or aside, what it would be told alone in its view.
pub fn a_run_is_private()
    ensures { (s : State) (steps : List Step) (outcomes : List Outcome) (s' : State)
        → TakesAll s steps outcomes s' → RunSays s steps outcomes s' }
{}

/// Two registries, whatever else they hold and do, over whatever keepers: where they agree on what a
/// team sees, and the steps of each are the team's own or aside, the team is told the same by both as
/// long as it asks the same. So it is of its requests that were answered; and of all its requests,
/// where memory was wanting for none of them, up to the first storage failure in either.
pub fn two_registries_tell_a_team_the_same()
    ensures whole { (s t : State) (steps others : List Step) (outcomes results : List Outcome) (s' t' : State)
        → TakesAll s steps outcomes s' → TakesAll t others results t'
        → (team : Team) → IsTeamOf s.world team → IsTeamOf t.world team
        → view s.world team ≡ view t.world team
        → All (OwnOrAside s.world steps team) steps → All (OwnOrAside t.world others team) others
        → asked team steps outcomes ≡ asked team others results
        → answers_to team steps outcomes ≡ answers_to team others results }
    ensures front { (s t : State) (steps others : List Step) (outcomes results : List Outcome) (s' t' : State)
        → TakesAll s steps outcomes s' → TakesAll t others results t'
        → (team : Team) → IsTeamOf s.world team → IsTeamOf t.world team
        → view s.world team ≡ view t.world team
        → All (OwnOrAside s.world steps team) steps → All (OwnOrAside t.world others team) others → (n : ℕ)
        → take n (asked team steps outcomes) ≡ take n (asked team others results)
        → take n (answers_to team steps outcomes) ≡ take n (answers_to team others results) }
    ensures all { (s t : State) (steps others : List Step) (outcomes results : List Outcome) (s' t' : State)
        → TakesAll s steps outcomes s' → TakesAll t others results t'
        → (team : Team) → IsTeamOf s.world team → IsTeamOf t.world team
        → view s.world team ≡ view t.world team
        → All (OwnOrAside s.world steps team) steps → All (OwnOrAside t.world others team) others
        → NoneMissed team steps outcomes → NoneMissed team others results
        → requests_of team steps ≡ requests_of team others
        → (n : ℕ) → n ≤ length (asked team steps outcomes) → n ≤ length (asked team others results)
        → take n (answers_to team steps outcomes) ≡ take n (answers_to team others results) }
{}

/// A token with the names on which it has a level is a team, and the smallest: steps under the token,
/// and steps aside of it, leave what it is told as it would be told alone.
pub fn a_token_is_told_alone()
    ensures team { (w : World) (token : Text) → IsTeamOf w (team_of_token w token) }
    ensures alone { (s : State) (steps : List Step) (outcomes : List Outcome) (s' : State)
        → TakesAll s steps outcomes s' → (token : Text)
        → All (OwnOrAside s.world steps (team_of_token s.world token)) steps
        → IsToldAlone s.world (team_of_token s.world token) (kept steps outcomes) }
{}
