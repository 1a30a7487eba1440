// The call of a line, made on the table. A line not so made is answered as a bad argument is.
ghost use Rattle.std.specs.Prelude.{◌≡◌};
ghost use Rattle.text.specs.Text.{fields_of};
ghost use Rattle.window.specs.PasswordAt.{password_at};
ghost use Rattle.desk.specs.Desk.{result_of};
ghost use Rattle.desk.specs.Reads.{read_after};
ghost use Rattle.call_lines.specs.Line.{particulars_of, load_line, challenge_line, sync_line, call_by, call_line};

use crate::fields::{field, has_fields};
use crate::names::{Name, name_of};
use crate::reading::{byte_at, number_at, word_at};
use desk::{
    Particulars, activate, challenge_login, load, lock, login, query, resume, suspend, sync,
    unlock, void,
};
use text::hex;
use token::{Answer, Refusal};
use window::{Scheme, Seconds};

// The particulars of a load, of which SERIAL and EXPIRY were read.
fn particulars_of(line: &[u8], serial: u64, expiry: Seconds) -> Option<Particulars>
    ensures { result ≡ particulars_of (fields_of line.now) serial expiry.0 }
{
    Some(Particulars {
        serial,
        scheme: Scheme {
            kind: byte_at(line, 2)?,
            algorithm: byte_at(line, 3)?,
            digits: byte_at(line, 4)?,
        },
        period: byte_at(line, 5)?,
        limit: byte_at(line, 6)?,
        wait: word_at(line, 8)?,
        expiry,
    })
}

// A line of a load, of which SERIAL and EXPIRY were read.
fn load_line(table: &mut [u8], line: &[u8], serial: u64, expiry: Seconds) -> Answer
    ensures { result_of result table.new ≡ read_after password_at (load_line (fields_of line.now) serial expiry.0) table.old }
{
    let particulars = particulars_of(line, serial, expiry).ok_or(Refusal::BadArgument)?;
    let key = hex(field(line, 7)).ok_or(Refusal::BadArgument)?;
    load(table, particulars, key.as_slice())
}

// A line of a challenge login.
fn challenge_line(table: &mut [u8], line: &[u8], serial: u64, clock: Seconds) -> Answer
    ensures { result_of result table.new ≡ read_after password_at (challenge_line (fields_of line.now) serial clock.0) table.old }
{
    let challenge = hex(field(line, 2)).ok_or(Refusal::BadArgument)?;
    challenge_login(table, serial, clock, challenge.as_slice(), field(line, 3))
}

// A line of a sync.
fn sync_line(table: &mut [u8], line: &[u8], serial: u64, clock: Seconds) -> Answer
    ensures { result_of result table.new ≡ read_after password_at (sync_line (fields_of line.now) serial clock.0) table.old }
{
    let choice = byte_at(line, 2).ok_or(Refusal::BadArgument)?;
    sync(table, serial, clock, choice, field(line, 3), field(line, 4))
}

// A line of the name's count of fields, of which SERIAL and the time at the end were read. Each call has arguments of its own, so that no table of
// functions could have them.
fn named_line(table: &mut [u8], line: &[u8], name: Name, serial: u64, clock: Seconds) -> Answer
    ensures { result_of result table.new ≡ read_after password_at (call_by name (fields_of line.now) serial clock.0) table.old }
{
    match name {
        Name::Load => load_line(table, line, serial, clock),
        Name::Login => login(table, serial, clock, field(line, 2)),
        Name::Challenge => challenge_line(table, line, serial, clock),
        Name::Activate => activate(table, serial, clock, field(line, 2), field(line, 3)),
        Name::Lock => lock(table, serial, clock),
        Name::Suspend => suspend(table, serial, clock),
        Name::Void => void(table, serial, clock),
        Name::Query => query(table, serial, clock),
        Name::Unlock => unlock(table, serial, clock, field(line, 2)),
        Name::Resume => resume(table, serial, clock, field(line, 2)),
        Name::Sync => sync_line(table, line, serial, clock),
    }
}

// Makes the call of a line.
pub(crate) fn call_line(table: &mut [u8], line: &[u8]) -> Answer
    ensures { result_of result table.new ≡ read_after password_at (call_line (fields_of line.now)) table.old }
{
    let name = name_of(field(line, 0)).ok_or(Refusal::BadArgument)?;
    let count = name.count();
    if !has_fields(line, count) {
        return Err(Refusal::BadArgument);
    }
    let serial = number_at(line, 1).ok_or(Refusal::BadArgument)?;
    let clock = number_at(line, count - 1).ok_or(Refusal::BadArgument)?;
    named_line(table, line, name, serial, Seconds(clock))
}
