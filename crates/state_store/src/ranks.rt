//! The ranks of bodies of a poll.
ghost use Rattle.std.specs.Prelude.{◌≡◌, ◌≤◌};
ghost use Rattle.election_tables.specs.Limits.{most_voters};
ghost use Rattle.election_tables.specs.TablesData.{IsTables};

use election_tables::Tables;
use image_codec::rank_of;
use twin_image::Ranked;

/// Ranks a body by the state of a poll of these tables and so many voters whose encoding it is.
#[derive(Drop)]
pub struct Ranks<'a> {
    tables: &'a Tables,
    voters: u32,
    ghost few: { voters ≤ most_voters },
}

impl<'a> Ranks<'a> {
    /// The ranks for so many voters, of whom there are at most 600.
    pub fn of(tables: &'a Tables, voters: u32) -> Ranks<'a>
        requires { voters ≤ most_voters }
        ensures tables { result.tables.now ≡ tables.now }
        ensures voters { result.voters ≡ voters }
        ensures whole { IsTables tables.now }
    {
        // that the tables are whole is known of each call on them
        let _panels = tables.panels();
        Ranks { tables, voters }
    }
}

impl Ranked for Ranks<'_> {
    ghost use Rattle.image_codec.specs.Decoded.{rank_in};

    ghost rank = { λ ranks. rank_in ranks.tables.now ranks.voters };

    fn rank(&self, body: &[u8]) -> Option<u32> {
        rank_of(self.tables, self.voters, body)
    }
}
