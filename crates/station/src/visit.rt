//! The lines of a ballot in a visit.
ghost use Rattle.std.specs.Prelude.{◌≡◌, ◌<◌, ◌≤◌, ◌-◌, ◌++◌, ℕ, List, IfSome, length, option_map, replicate, slice_get};
ghost use Rattle.election_tables.specs.Limits.{most_lines};
ghost use Rattle.election_tables.specs.TablesData.{line_panels};
ghost use Rattle.vote_kinds.specs.declared.choice.Choice.TheVariants.{Null};
ghost use Rattle.vote_kinds.specs.Ballot.{ballot_lines, line_of};
ghost use Rattle.station.specs.Output.{earlier_for};
ghost use Rattle.station.specs.Setting.{setting_of};

use arrayvec::ArrayVec;
use election_tables::Tables;
use vote_kinds::Choice;

/// The choices of a visit so far, one for each line of the ballot that was confirmed.
pub type Choices = ArrayVec<Choice, 9>;

/// The line of the ballot that stands: its panel, counted from 0, and the choice of the line before, if that is of the same panel.
#[derive(Clone, Copy)]
pub(crate) struct StandingLine {
    pub panel: u32,
    pub before: Option<Choice>,
}

/// The line behind these choices, if the ballot has one left.
#[tactic(auto, using(crate::proofs::Lines::found_line, crate::proofs::Lines::no_line))]
pub(crate) fn line_behind(tables: &Tables, choices: &Choices) -> Option<StandingLine>
    ensures line { option_map (λ x. line_of tables.now x.panel) result ≡ slice_get (ballot_lines tables.now) (length choices.now.items) }
    ensures before { (titles : List ℕ) → IfSome result (λ x. x.before ≡ earlier_for (setting_of tables.now titles) choices.now.items (line_of tables.now x.panel)) }
    ensures panel { IfSome result (λ x. x.panel < length tables.now.panels) }
    ensures room { IfSome result (λ x. length choices.now.items < most_lines) }
{
    let number = choices.len() as u32;
    if number >= tables.ballot_lines() {
        return None;
    }
    let panel = tables.line_panel(number);
    Some(StandingLine {
        panel,
        before: choice_before(tables, choices, panel),
    })
}

/// The choice of the line before the next one, if that line is of this panel.
fn choice_before(tables: &Tables, choices: &Choices, panel: u32) -> Option<Choice>
    requires { length choices.now.items ≤ length (line_panels tables.now) }
    ensures { (titles : List ℕ) → result ≡ earlier_for (setting_of tables.now titles) choices.now.items (line_of tables.now panel) }
{
    match choices.last() {
        Some(&choice) if tables.line_panel(choices.len() as u32 - 1) == panel => Some(choice),
        _ => None,
    }
}

/// Adds Null until there is a choice for so many lines.
pub(crate) fn fill_up(choices: &mut Choices, lines: usize)
    requires { lines ≤ most_lines }
    ensures { choices.new.items ≡ choices.old.items ++ replicate (lines - length choices.old.items) Null }
{
    while choices.len() < lines {
        choices.push(Choice::Null);
    }
}
