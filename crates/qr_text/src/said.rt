//! What a field text says: the numbers of a report, and beside them the sums as the text gives them, right or wrong.
ghost use Rattle.std.specs.Prelude.{◌≡◌, ◌++◌, ◌∷◌, [], OnErr, OnOk};

use poll_report::Counts;
use std::alloc::Global;
use std::marker::Model;
use urna_base::Memory;

/// What is said of a party, in a proportional office.
#[derive(Debug, Drop)]
pub struct SaidParty {
    pub number: u32,
    pub candidates: Counts,
    /// The party votes.
    pub legend: u32,
    pub total: u32,
}

/// Parties in a row, which contracts see as their list.
#[derive(Debug, Drop)]
pub struct SaidParties {
    items: Vec<SaidParty>,
}

impl Model for SaidParties {
    ghost use Rattle.std.specs.Prelude.{List};
    ghost use Rattle.qr_text.specs.declared.said.SaidParty.{SaidParty};

    ghost Value = { List SaidParty };

    ghost view = { λ p. p.items.items };
}

impl SaidParties {
    /// No parties.
    pub fn new(alloc: Global) -> SaidParties
        ensures { result ≡ [] }
    {
        SaidParties {
            items: Vec::new(alloc),
        }
    }

    /// One party more, behind the others. `Memory` comes only where an allocation failed, and then nothing has changed.
    pub fn push(&mut self, item: SaidParty) -> Result<(), Memory>
        ensures pushed { OnOk result (self.new ≡ self.old ++ item ∷ []) }
        ensures kept { OnErr result (self.new ≡ self.old) }
    {
        self.items.push(item)?;
        Ok(())
    }

    /// All of them.
    pub fn as_slice(&self) -> &[SaidParty]
        ensures { result.now ≡ self.now }
    {
        self.items.as_slice()
    }
}

/// What is said of an office.
#[derive(Debug, Drop)]
pub struct SaidOffice {
    pub code: u8,
    /// How many votes each voter has; it is said only where it isn't one.
    pub places: u32,
    /// None in a proportional office, where the candidates stand with their parties.
    pub candidates: Counts,
    /// None in a majority office.
    pub parties: SaidParties,
    /// The voters of the section.
    pub able: u32,
    /// The votes of all candidates.
    pub nominal: u32,
    /// All party votes; 0 in a majority office, whose text has no such sum.
    pub legend: u32,
    pub blank: u32,
    pub null_votes: u32,
    pub total: u32,
}

/// Offices in a row, which contracts see as their list.
#[derive(Debug, Drop)]
pub struct SaidOffices {
    items: Vec<SaidOffice>,
}

impl Model for SaidOffices {
    ghost use Rattle.std.specs.Prelude.{List};
    ghost use Rattle.qr_text.specs.declared.said.SaidOffice.{SaidOffice};

    ghost Value = { List SaidOffice };

    ghost view = { λ o. o.items.items };
}

impl SaidOffices {
    /// No offices.
    pub fn new(alloc: Global) -> SaidOffices
        ensures { result ≡ [] }
    {
        SaidOffices {
            items: Vec::new(alloc),
        }
    }

    /// One office more, behind the others. `Memory` comes only where an allocation failed, and then nothing has changed.
    pub fn push(&mut self, item: SaidOffice) -> Result<(), Memory>
        ensures pushed { OnOk result (self.new ≡ self.old ++ item ∷ []) }
        ensures kept { OnErr result (self.new ≡ self.old) }
    {
        self.items.push(item)?;
        Ok(())
    }

    /// All of them.
    pub fn as_slice(&self) -> &[SaidOffice]
        ensures { result.now ≡ self.now }
    {
        self.items.as_slice()
    }
}

/// All that a text says. A moment is said in two fields, its date YYYYMMDD and its time of the day HHMMSS.
#[derive(Debug, Drop)]
pub struct Said {
    pub process: u32,
    pub date: u32,
    pub turn: u8,
    pub zone: u32,
    pub section: u32,
    /// The voters of the section.
    pub able: u32,
    pub came: u32,
    pub missed: u32,
    pub open_date: u32,
    pub open_time: u32,
    pub close_date: u32,
    pub close_time: u32,
    pub offices: SaidOffices,
}
