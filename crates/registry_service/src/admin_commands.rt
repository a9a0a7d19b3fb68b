ghost use Rattle.std.specs.Prelude.{◌≡◌, true, false};
ghost use Rattle.registry_service.specs.AdminCommands.{fault_of, is_carried_out, refusal_as};
ghost use Rattle.registry_model.specs.Command.{carried_out};
ghost use Rattle.registry_model.specs.Doing.{CarriesOut, SpendsAs, course_of_result};
ghost use Rattle.registry_model.specs.Keeping.{HeldStays, Reads, Writes, Spends, state_of};

use manifest_operations::prune;
use oci_types::Fault;
use registry_model::{AdminCommand, AdminFault, Keeper};
use std::alloc::Global;

/// The fault of a command whose keeper gave up.
fn given_up(fault: Fault) -> AdminFault
    ensures { result ≡ fault_of fault }
{
    match fault {
        Fault::Memory => AdminFault::Memory,
        Fault::Storage => AdminFault::Storage,
    }
}

/// Whether a command is carried out, and not refused: what it is about is there, or is not where it makes
/// it.
fn is_carried_out<K: Keeper>(keeper: &mut K, command: &AdminCommand) -> Result<bool, Fault>
    ensures found { K.is_honest keeper.new →
        Reads result (is_carried_out (K.kept keeper.old).world command.now)
        (K.kept keeper.old) (K.kept keeper.new) }
    ensures spends { Spends result (K.kept keeper.old) (K.kept keeper.new) }
    ensures honest { K.is_honest keeper.new → K.is_honest keeper.old }
{
    match command {
        AdminCommand::AddRepo { name, .. } => Ok(!keeper.has_repo(name)?),
        AdminCommand::SetQuota { name, .. } => keeper.has_repo(name),
        AdminCommand::DropRepo { name } => keeper.has_repo(name),
        AdminCommand::Grant { name, .. } => keeper.has_repo(name),
        AdminCommand::Revoke { token, name } => Ok(keeper.level(token, name)?.is_some()),
        AdminCommand::RevokeAll { token } => keeper.known(token),
        AdminCommand::DropSessions { name } => keeper.has_repo(name),
        AdminCommand::Prune { name } => keeper.has_repo(name),
        AdminCommand::Clear if keeper.spent() => Err(Fault::Storage),
        AdminCommand::Clear => Ok(true),
    }
}

/// Why a command is refused that is.
fn refusal_as(command: &AdminCommand) -> AdminFault
    ensures { result ≡ refusal_as command.now }
{
    match command {
        AdminCommand::AddRepo { .. } => AdminFault::RepoThere,
        AdminCommand::Revoke { .. } | AdminCommand::RevokeAll { .. } => AdminFault::NoGrant,
        _ => AdminFault::NoRepo,
    }
}

/// Carries out a command that is not refused.
fn carry_out<K: Keeper>(alloc: Global, keeper: &mut K, command: &AdminCommand) -> Result<(), Fault>
    requires { K.is_honest keeper.old → (K.kept keeper.old).spent ≡ false
        → is_carried_out (K.kept keeper.old).world command.now ≡ true }
    ensures made { K.is_honest keeper.new →
        Writes result (carried_out (K.kept keeper.old).world command.now)
        (K.kept keeper.old) (K.kept keeper.new) }
    ensures spends { Spends result (K.kept keeper.old) (K.kept keeper.new) }
    ensures honest { K.is_honest keeper.new → K.is_honest keeper.old }
{
    match command {
        AdminCommand::AddRepo { name, quota } => keeper.set_repo(name, *quota),
        AdminCommand::SetQuota { name, quota } => keeper.set_repo(name, *quota),
        AdminCommand::DropRepo { name } => keeper.drop_repo(name),
        AdminCommand::Grant { token, name, level } => keeper.grant(token, name, *level),
        AdminCommand::Revoke { token, name } => keeper.revoke(token, name),
        AdminCommand::RevokeAll { token } => keeper.revoke_all(token),
        AdminCommand::DropSessions { name } => keeper.drop_sessions(name),
        AdminCommand::Prune { name } => prune(alloc, keeper, name),
        AdminCommand::Clear => keeper.clear(),
    }
}

/// Carries out a command, or refuses it.
pub fn apply_command<K: Keeper>(
    alloc: Global,
    keeper: &mut K,
    command: &AdminCommand,
) -> Result<(), AdminFault>
    ensures does { K.is_honest keeper.new →
        CarriesOut (state_of (K.kept keeper.old)) command.now result (state_of (K.kept keeper.new)) }
    ensures holds { K.is_honest keeper.new → HeldStays (K.kept keeper.old) (K.kept keeper.new) }
    ensures spends { SpendsAs (course_of_result result)
        (state_of (K.kept keeper.old)) (state_of (K.kept keeper.new)) }
    ensures honest { K.is_honest keeper.new → K.is_honest keeper.old }
{
    if !is_carried_out(keeper, command).map_err(given_up)? {
        return Err(refusal_as(command));
    }
    carry_out(alloc, keeper, command).map_err(given_up)
}
