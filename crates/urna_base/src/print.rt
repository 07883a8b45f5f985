ghost use Rattle.std.specs.Prelude.{◌≡◌, ◌^◌, ◌<◌, ◌≤◌, ◌++◌, [], ◌∷◌, length, take, drop, OnOk, OnErr};
ghost use Rattle.std.specs.Fmt.{decimal};
ghost use Rattle.urna_base.specs.Digits.{padded};
ghost use Rattle.urna_base.specs.Lines.{lines_text};

use crate::memory::Memory;
use itoa::Buffer;

/// Appends `value` with exactly `n` digits, leading zeros included. `Err` is want of memory, and leaves `out` as it was.
///
/// The caller owes that `n` is 1 to 18 and that `value` is below 10 to the `n`.
pub fn put_digits(out: &mut Vec<u8>, value: u64, n: u32) -> Result<(), Memory>
    requires some { 1 ≤ n }
    requires few { n ≤ 18 }
    requires fits { value < 10 ^ n }
    ensures ok { OnOk result (out.new.items ≡ out.old.items ++ padded n value) }
    ensures err { OnErr result (out.new.items ≡ out.old.items) }
{
    let text = padded_digits(value, n);
    out.extend_from_slice(&text[..n as usize])?;
    Ok(())
}

/// Appends `value` with its shortest digits. `Err` is want of memory, and leaves `out` as it was.
pub fn put_decimal(out: &mut Vec<u8>, value: u64) -> Result<(), Memory>
    ensures ok { OnOk result (out.new.items ≡ out.old.items ++ decimal value) }
    ensures err { OnErr result (out.new.items ≡ out.old.items) }
{
    let mut buffer = Buffer::new();
    out.extend_from_slice(buffer.format(value).as_bytes())?;
    Ok(())
}

/// Appends a word and the shortest digits of a number. `Err` is want of memory, and says nothing of `out`.
pub fn put_numbered(out: &mut Vec<u8>, word: &[u8], number: u64) -> Result<(), Memory>
    ensures { OnOk result (out.new.items ≡ out.old.items ++ (word.now ++ decimal number)) }
{
    out.extend_from_slice(word)?;
    put_decimal(out, number)
}

/// Appends a line, with its line feed. `Err` is want of memory, and says nothing of `out`.
pub fn put_line(out: &mut Vec<u8>, line: &[u8]) -> Result<(), Memory>
    ensures { OnOk result (out.new.items ≡ out.old.items ++ lines_text (line.now ∷ [])) }
{
    out.extend_from_slice(line)?;
    out.push(b'\n')?;
    Ok(())
}

/// Writes `value`'s shortest digits at the front of `into`, and answers their number, 1 to 20. The rest of `into` stays
/// as it was.
pub fn decimal_into(value: u64, into: &mut [u8; 20]) -> u32
    ensures some { 1 ≤ result }
    ensures few { result ≤ 20 }
    ensures written { take result into.new ≡ decimal value }
    ensures rest { drop result into.new ≡ drop result into.old }
{
    let mut buffer = Buffer::new();
    let text = buffer.format(value).as_bytes();
    let count = text.len();
    into[..count].copy_from_slice(text);
    count as u32
}

/// The `n` digits of a number, at the front of an array.
pub(crate) fn padded_digits(value: u64, n: u32) -> [u8; 18]
    requires { n ≤ 18 }
    ensures { take n result ≡ padded n value }
{
    let mut text = [b'0'; 18];
    fill_digits(&mut text[..n as usize], value);
    text
}

/// Fills `into` with the last digits of `value`.
fn fill_digits(into: &mut [u8], value: u64)
    ensures { into.new ≡ padded (length into.old) value }
{
    let mut rest = value;
    let mut at = into.len();
    while at > 0 {
        at -= 1;
        into[at] = b'0' + (rest % 10) as u8;
        rest /= 10;
    }
}
