//! One field is written.
ghost use Rattle.std.specs.Prelude.{◌≡◌, ◌++◌, ◌∷◌, OnOk};
ghost use Rattle.election_tables.specs.Fields.{first_two};
ghost use Rattle.poll_report.specs.Report.{digits_in};
ghost use Rattle.qr_text.specs.Table.{row_text};
ghost use Rattle.qr_text.specs.Writing.{HasRoom, spaced_vote};

use crate::table::{Form, Row};
use election_tables::first_two;
use poll_report::{Count, digits_in};
use urna_base::{Memory, put_decimal, put_digits, put_numbered};

/// Appends a field of the table.
pub(crate) fn put_field(out: &mut Vec<u8>, row: &Row, value: u64) -> Result<(), Memory>
    requires { HasRoom row.now.form value }
    ensures { OnOk result (out.new.items ≡ out.old.items ++ row_text row.now value) }
{
    out.extend_from_slice(&row.key)?;
    out.push(b':')?;
    match row.form {
        Form::Vota => out.extend_from_slice(b"VOTA")?,
        Form::Between { .. } => put_decimal(out, value)?,
        Form::Date => put_digits(out, value, 8)?,
        Form::Time => put_digits(out, value, 6)?,
    }
    Ok(())
}

/// Appends a field of the table behind a space.
pub(crate) fn put_next(out: &mut Vec<u8>, row: &Row, value: u64) -> Result<(), Memory>
    requires { HasRoom row.now.form value }
    ensures { OnOk result (out.new.items ≡ out.old.items ++ 32 ∷ row_text row.now value) }
{
    out.push(b' ')?;
    put_field(out, row, value)
}

/// Appends the field of a candidate behind a space.
pub(crate) fn put_vote(out: &mut Vec<u8>, count: Count) -> Result<(), Memory>
    ensures { OnOk result (out.new.items ≡ out.old.items ++ spaced_vote count) }
{
    put_numbered(out, b" ", u64::from(count.number))?;
    put_numbered(out, b":", u64::from(count.votes))
}

/// The party of a candidate of an office: the first two digits of the candidate's number.
pub(crate) fn party_of(code: u8, number: u32) -> u32
    ensures { result ≡ first_two (digits_in code) number }
{
    first_two(digits_in(code), u64::from(number)) as u32
}
