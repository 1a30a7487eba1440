// A message served as its call.
ghost use Rattle.std.specs.Prelude.{◌≡◌, false, Some};
ghost use Rattle.window.specs.PasswordAt.{password_at};
ghost use Rattle.desk.specs.Desk.{result_of};
ghost use Rattle.desk.specs.Reads.{read_after};
ghost use Rattle.message.specs.Message.{message_at};
ghost use Rattle.message_calls.specs.Serving.{service_of, misfits, call_for, message_reads};
ghost use Rattle.message_calls.specs.Finding.{fits};

use crate::items::{content, items_fit, serial_of};
use crate::services::{CHALLENGE, FOLLOWING, PASSWORD, RESPONSE, Service, options_fit, service_of};
use desk::{activate, challenge_login, lock, login, query, resume, suspend, sync, unlock, void};
use message::{Framed, frame_of};
use token::{Answer, Refusal};
use window::Seconds;

// Whether options, items and serial are those of the service's call.
fn fits(framed: &Framed, service: Service) -> bool
    ensures { result ≡ fits service (message_at framed.now.message.now) }
{
    options_fit(service, framed.options())
        & items_fit(framed, service)
        & serial_of(framed).is_some()
}

// Whether the service has a call, and options, items or serial are not that call's.
fn misfits(framed: &Framed) -> bool
    ensures { result ≡ misfits (message_at framed.now.message.now) }
{
    let Some(service) = service_of(framed.service()) else {
        return false;
    };
    !fits(framed, service)
}

// The call of a service. Each has arguments of its own, so that no table of functions could have them.
fn serve_call(table: &mut [u8], framed: &Framed, service: Service, clock: Seconds) -> Answer
    requires service_value { service_of (message_at framed.now.message.now).service ≡ Some service }
    requires message_value { misfits (message_at framed.now.message.now) ≡ false }
    ensures { result_of result table.new ≡ read_after password_at (call_for (Some service) (message_at framed.now.message.now) clock.0) table.old }
{
    let serial = serial_of(framed).unwrap();
    match service {
        Service::Login => login(table, serial, clock, content(framed, PASSWORD)),
        Service::ChallengeLogin => challenge_login(
            table,
            serial,
            clock,
            content(framed, CHALLENGE),
            content(framed, RESPONSE),
        ),
        Service::Activate => activate(
            table,
            serial,
            clock,
            content(framed, PASSWORD),
            content(framed, FOLLOWING),
        ),
        Service::Lock => lock(table, serial, clock),
        Service::Unlock => unlock(table, serial, clock, content(framed, PASSWORD)),
        Service::Suspend => suspend(table, serial, clock),
        Service::Resume => resume(table, serial, clock, content(framed, PASSWORD)),
        Service::Sync => sync(
            table,
            serial,
            clock,
            framed.options() as u8,
            content(framed, PASSWORD),
            content(framed, FOLLOWING),
        ),
        Service::Void => void(table, serial, clock),
        Service::Query => query(table, serial, clock),
    }
}

// Serves a message: 9001, then 9002, then 9004, then whatever its call says.
pub fn serve_message(table: &mut [u8], message: &[u8], clock: Seconds) -> Answer
    ensures { result_of result table.new ≡ read_after password_at (message_reads message.now clock.0) table.old }
{
    let framed = frame_of(message).ok_or(Refusal::BadMessage)?;
    if framed.is_reply() | misfits(&framed) {
        return Err(Refusal::BadMessage);
    }
    if !framed.mac_fits() {
        return Err(Refusal::BadMac);
    }
    let service = service_of(framed.service()).ok_or(Refusal::NoService)?;
    serve_call(table, &framed, service, clock)
}
