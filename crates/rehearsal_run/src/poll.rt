//! A poll that is held over a machine in memory.
ghost use Rattle.std.specs.Prelude.{◌≡◌, ◌≤◌, List, IfOk, length};
ghost use Rattle.memory_outside.specs.Chips.{flashes_in};
ghost use Rattle.urna_outside.specs.Started.{blank_flashes, both_sizes};
ghost use Rattle.memory_outside.specs.Steady.{flashes_told, steady_told};
ghost use Rattle.urna_outside.specs.declared.device.Dev.TheVariants as Dev;
ghost use Rattle.election_tables.specs.Limits.{most_voters};
ghost use Rattle.election_tables.specs.Roll.{IsRoll};
ghost use Rattle.election_tables.specs.TablesData.{IsTables};
ghost use Rattle.image_codec.specs.Encoding.{IsStateOf};
ghost use Rattle.image_codec.specs.Valid.{ready_state};
ghost use Rattle.state_store.specs.Load.{IsSectionOf, load_of};
ghost use Rattle.state_store.specs.Rest.{AreAtRest, device_size, rest};
ghost use Rattle.state_store.specs.Store.{AreDevices};
ghost use Rattle.station.specs.Output.{Output};
ghost use Rattle.station.specs.Run.{IsRun};
ghost use Rattle.station.specs.Setting.{setting_of};
ghost use Rattle.rehearsal.specs.Roll.{generated_roll};
ghost use Rattle.rehearsal.specs.Tables.{generated_section, generated_tables};
ghost use Rattle.rehearsal_run.specs.Sealed.{IsRehearsal};

use election_tables::{Roll, Section, Tables};
use key_script::Script;
use memory_outside::Steady;
use rehearsal::read_script;
use state_store::{DEVICE_SIZE, LoadError, Store};
use station::{StartError, Station};
use std::alloc::Global;
use urna_base::Memory;
use urna_outside::{Dev, Machine};

/// A poll that was held: the station at its last state, and all bytes of the internal flash, which is at rest with it.
#[derive(Drop)]
pub(crate) struct HeldPoll {
    pub station: Station,
    pub flash: Vec<u8>,
}

/// The only section of the tables of `n` voters.
pub(crate) fn section_of(n: u32) -> Section
    ensures { result ≡ generated_section n }
{
    Section {
        zone: 1,
        number: 1,
        voters: n,
    }
}

/// Holds the poll of the rehearsal of `n` voters, whose tables and roll these are, over two flashes in memory.
pub(crate) fn hold_rehearsal(
    alloc: Global,
    n: u32,
    tables: &Tables,
    roll: &Roll,
) -> Result<HeldPoll, Memory>
    requires some { 1 ≤ n }
    requires few { n ≤ most_voters }
    requires valid { IsTables tables.now }
    requires tables { tables.now ≡ generated_tables n tables.now.digest }
    requires valid_roll { IsRoll roll.now }
    requires roll { roll.now ≡ generated_roll n roll.now.digest }
    ensures run { IfOk result (λ held. (out : List Output) × IsRehearsal n tables.now.digest held.station.standing.state out) }
    ensures state { IfOk result (λ held. IsStateOf tables.now n held.station.standing.state) }
    ensures flash { IfOk result (λ held. held.flash.items
        ≡ rest tables.now (load_of tables.now roll.now (generated_section n)) Dev.Internal held.station.standing.state) }
{
    let script = read_script(alloc, n)?;
    let mut machine = Steady::new(alloc, DEVICE_SIZE)?;
    let station = hold_poll(alloc, tables, roll, &script, section_of(n), &mut machine)?;
    let flash = internal_flash(alloc, &mut machine)?;
    Ok(HeldPoll { station, flash })
}

/// Loads blank flashes for a section, and holds the session of the keys over them. The station then stands at the poll's last state, and
/// both flashes are at rest with it.
///
/// The caller owes that the section is one of the tables with as many voters as the roll. Want of memory is the only error: no call of the
/// machine fails, its flashes are blank at first, and loaded from then on.
fn hold_poll(
    alloc: Global,
    tables: &Tables,
    roll: &Roll,
    script: &Script,
    section: Section,
    machine: &mut Steady,
) -> Result<Station, Memory>
    requires blank { steady_told machine.old ≡ flashes_told (both_sizes device_size) (blank_flashes device_size) }
    requires tables { IsTables tables.now }
    requires roll { IsRoll roll.now }
    requires section { IsSectionOf tables.now roll.now section }
    ensures run { IfOk result (λ end. (out : List Output)
        × IsRun (setting_of tables.now roll.now.titles) (ready_state tables.now (length roll.now.titles)) script.now end.standing.state out) }
    ensures state { IfOk result (λ end. IsStateOf tables.now section.voters end.standing.state) }
    ensures rest { IfOk result (λ end. AreAtRest tables.now (load_of tables.now roll.now section) end.standing.state (flashes_in machine.new.chips)) }
{
    match Store::format(alloc, tables, roll, section, machine) {
        Ok(_) => {}
        Err(LoadError::Memory) => return Err(Memory),
        Err(LoadError::Flash(_)) => unreachable!(),
        Err(LoadError::Busy(_)) => unreachable!(),
    }
    run_loaded(alloc, tables, roll, script, section, machine)
}

/// Holds the session of the keys over loaded flashes.
fn run_loaded(
    alloc: Global,
    tables: &Tables,
    roll: &Roll,
    script: &Script,
    section: Section,
    machine: &mut Steady,
) -> Result<Station, Memory>
    requires tables { IsTables tables.now }
    requires roll { IsRoll roll.now }
    requires section { IsSectionOf tables.now roll.now section }
    requires rest { AreAtRest tables.now (load_of tables.now roll.now section) (ready_state tables.now (length roll.now.titles)) (flashes_in machine.old.chips) }
    requires state { IsStateOf tables.now section.voters (ready_state tables.now (length roll.now.titles)) }
    requires devices { AreDevices (steady_told machine.old).sizes }
    ensures run { IfOk result (λ end. (out : List Output)
        × IsRun (setting_of tables.now roll.now.titles) (ready_state tables.now (length roll.now.titles)) script.now end.standing.state out) }
    ensures state { IfOk result (λ end. IsStateOf tables.now section.voters end.standing.state) }
    ensures rest { IfOk result (λ end. AreAtRest tables.now (load_of tables.now roll.now section) end.standing.state (flashes_in machine.new.chips)) }
{
    let station = match Station::start(alloc, tables, roll, machine) {
        Ok(station) => station,
        Err(StartError::Memory) => return Err(Memory),
        Err(StartError::Port(_)) => unreachable!(),
        Err(StartError::Foreign(_)) => unreachable!(),
        Err(StartError::NoImage) => unreachable!(),
    };
    match station.run(tables, roll, machine, script) {
        Ok(end) => Ok(end),
        Err(_) => unreachable!(),
    }
}

/// All bytes of the internal flash.
fn internal_flash(alloc: Global, machine: &mut Steady) -> Result<Vec<u8>, Memory>
    ensures { IfOk result (λ bytes. bytes.items ≡ (flashes_in machine.old.chips).internal.content) }
{
    let size = machine.size(Dev::Internal);
    let mut bytes = vec![in alloc; 0; size as usize]?;
    match machine.read(Dev::Internal, 0, bytes.as_mut_slice()) {
        Ok(()) => Ok(bytes),
        Err(_) => unreachable!(),
    }
}
