//! Laws of worlds: a refusal changes nothing, and what requests and commands make of a sound world
//! is sound. Each is the contract of a function that does nothing.

ghost use Rattle.std.specs.Prelude.{◌≡◌, ◌≤◌, List, Some};
ghost use Rattle.registry_model.specs.World.{World, no_world};
ghost use Rattle.registry_model.specs.Answer.{code_of};
ghost use Rattle.registry_model.specs.Ask.{Ask};
ghost use Rattle.registry_model.specs.Judging.{reply_to, after_request};
ghost use Rattle.registry_model.specs.Command.{refusal_of, after_command};
ghost use Rattle.registry_model.specs.Soundness.{IsSound};
ghost use Rattle.registry_model.specs.Team.{Step};
ghost use Rattle.registry_model.specs.Runs.{Outcome, after_all};

use crate::{AdminCommand, AdminFault};

/// What is answered with a status of 400 or more leaves the world as it was, and so does a command
/// that is refused.
pub fn a_refusal_gives_the_world_back()
    ensures requests { (w : World) (q : Ask) → 400 ≤ code_of (reply_to w q).status → after_request w q ≡ w }
    ensures commands { (w : World) (a : AdminCommand) (e : AdminFault) → refusal_of w a ≡ Some e
        → after_command w a ≡ w }
{}

/// The world without repositories and grants, with which a registry begins, is sound.
pub fn the_empty_world_is_sound()
    ensures { IsSound no_world }
{}

/// Whatever is asked of a sound world, the world after it is sound.
pub fn an_answer_keeps_a_sound_world_sound()
    ensures { (w : World) (q : Ask) → IsSound w → IsSound (after_request w q) }
{}

/// Whatever an administrator does to a sound world, the world after it is sound.
pub fn a_command_keeps_a_sound_world_sound()
    ensures { (w : World) (a : AdminCommand) → IsSound w → IsSound (after_command w a) }
{}

/// However many steps are taken one after the other from a sound world, the last one is sound.
pub fn a_run_keeps_a_sound_world_sound()
    ensures { (w : World) (pairs : List (Step × Outcome)) → IsSound w → IsSound (after_all w pairs) }
{}
