//! Taking and reading the files of a command.
ghost use Rattle.std.specs.Prelude.{◌≢◌, IfErr, IfOk};
ghost use Rattle.command_parts.specs.Documents.{IsListed};
ghost use Rattle.command_parts.specs.declared.error.Doc.TheVariants as both;
ghost use Rattle.ledger_commands.specs.Documents.{HasTaken, IsFault, IsFirstFault, status_in};
ghost use Rattle.ledger_commands.specs.Errors.{IsOfLedgerDoc};

use crate::status::{LedgerStatus, refused};
use command_parts::{Document, take_tables_and};
use election_tables::Tables;
use key_script::Names;
use std::alloc::Global;
use urna_outside::Cabinet;

/// Takes the file of a name, and reads it. The caller owes that it is one of this program.
pub(crate) fn take<C: Cabinet, D: Document>(
    alloc: Global,
    cabinet: &mut C,
    name: &str,
) -> Result<D, LedgerStatus>
    requires { IsOfLedgerDoc D.doc }
    ensures read { IfOk result (λ x. D.held (C.told cabinet.old).files name.now x) }
    ensures fault { IfErr result (λ s. s ≢ LedgerStatus.Memory → s ≢ LedgerStatus.Cabinet → IsFault (C.told cabinet.old).files name.now D.doc s) }
    ensures taken { HasTaken 1 (status_in result) (C.told cabinet.old) (C.told cabinet.new) }
{
    match D::take_document(alloc, cabinet, name) {
        Ok(document) => Ok(document),
        Err(error) => Err(refused(error)),
    }
}

/// The tables of a command and the names that its list has, in the order of its words.
pub(crate) fn take_tables_and_list<C: Cabinet>(
    alloc: Global,
    cabinet: &mut C,
    tables: &str,
    list: &str,
) -> Result<(Tables, Names), LedgerStatus>
    ensures given { IfOk result (λ both. IsListed (C.told cabinet.old).files tables.now list.now both.0 both.1) }
    ensures fault { IfErr result (λ s. s ≢ LedgerStatus.Memory → s ≢ LedgerStatus.Cabinet
        → IsFirstFault (C.told cabinet.old).files tables.now both.List list.now s) }
    ensures taken { HasTaken 2 (status_in result) (C.told cabinet.old) (C.told cabinet.new) }
{
    match take_tables_and::<C, Names>(alloc, cabinet, tables, list) {
        Ok(both) => Ok(both),
        Err(error) => Err(refused(error)),
    }
}
