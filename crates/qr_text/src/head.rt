//! The fields of a report before its offices.
ghost use Rattle.std.specs.Prelude.{◌≡◌, MatchResult, Err, Ok};
ghost use Rattle.qr_text.specs.Said.{moment};
ghost use Rattle.qr_text.specs.Sections.{head_reading, hours_reading, poll_reading, voters_reading};

use crate::fault::FieldFault;
use crate::reader::{Reader, read};
use crate::table::TABLE;

/// Which poll a report is of.
#[derive(Clone, Copy)]
pub(crate) struct Poll {
    pub process: u32,
    pub date: u32,
    pub turn: u8,
    pub zone: u32,
    pub section: u32,
}

/// The voters of the section.
#[derive(Clone, Copy)]
pub(crate) struct Voters {
    pub able: u32,
    pub came: u32,
    pub missed: u32,
}

/// When the poll was open.
#[derive(Clone, Copy)]
pub(crate) struct Hours {
    pub open_date: u32,
    pub open_time: u32,
    pub close_date: u32,
    pub close_time: u32,
}

/// All fields before the offices.
#[derive(Clone, Copy)]
pub(crate) struct Head {
    pub poll: Poll,
    pub voters: Voters,
    pub hours: Hours,
}

/// The fields of a report before its offices, or the first fault in them.
#[tactic(auto, unfolding(crate::specs::Sections::head_reading))]
pub(crate) fn read_head(reader: &mut Reader<'_>) -> Result<Head, FieldFault>
    ensures { MatchResult result (λ h. head_reading reader.old ≡ Ok (h, reader.new)) (λ e. head_reading reader.old ≡ Err e) }
{
    let poll = read_poll(reader)?;
    let voters = read_voters(reader)?;
    let hours = read_hours(reader)?;
    Ok(Head {
        poll,
        voters,
        hours,
    })
}

#[tactic(auto, unfolding(crate::specs::Sections::poll_reading))]
fn read_poll(reader: &mut Reader<'_>) -> Result<Poll, FieldFault>
    ensures { MatchResult result (λ h. poll_reading reader.old ≡ Ok (h, reader.new)) (λ e. poll_reading reader.old ≡ Err e) }
{
    let _ = read!(reader, orig);
    let process = read!(reader, process);
    let date = read!(reader, date);
    let turn = read!(reader, turn) as u8;
    let zone = read!(reader, zone);
    let section = read!(reader, section);
    Ok(Poll {
        process,
        date,
        turn,
        zone,
        section,
    })
}

#[tactic(auto, unfolding(crate::specs::Sections::agreed, crate::specs::Sections::voters_reading))]
fn read_voters(reader: &mut Reader<'_>) -> Result<Voters, FieldFault>
    ensures { MatchResult result (λ h. voters_reading reader.old ≡ Ok (h, reader.new)) (λ e. voters_reading reader.old ≡ Err e) }
{
    let able = read!(reader, able);
    let came = read!(reader, came);
    let field = reader.place();
    let missed = read!(reader, missed);
    let sum = u64::from(came) + u64::from(missed);
    let said = u64::from(able);
    if sum != said {
        return Err(FieldFault::Sum { field, sum, said });
    }
    Ok(Voters { able, came, missed })
}

#[tactic(auto, unfolding(crate::specs::Sections::held, crate::specs::Sections::hours_reading))]
fn read_hours(reader: &mut Reader<'_>) -> Result<Hours, FieldFault>
    ensures { MatchResult result (λ h. hours_reading reader.old ≡ Ok (h, reader.new)) (λ e. hours_reading reader.old ≡ Err e) }
{
    let open_date = read!(reader, open_date);
    let open_time = read!(reader, open_time);
    let close_date = read!(reader, close_date);
    let field = reader.place();
    let close_time = read!(reader, close_time);
    if moment(open_date, open_time) <= moment(close_date, close_time) {
        Ok(Hours {
            open_date,
            open_time,
            close_date,
            close_time,
        })
    } else {
        Err(FieldFault::Field(field))
    }
}

/// A moment YYYYMMDDHHMMSS of its date and its time of the day.
pub(crate) fn moment(date: u32, time: u32) -> u64
    ensures { result ≡ moment date time }
{
    u64::from(date) * 1_000_000 + u64::from(time)
}
