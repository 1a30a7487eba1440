// What a request does with one well-formed row, by value: the answer, and what is left of the row.
ghost use Rattle.std.specs.Prelude.{◌≡◌, true};
ghost use Rattle.window.specs.Window.{Sound};
ghost use Rattle.window.specs.PasswordAt.{password_at, in_range};
ghost use Rattle.token.specs.Lines.{line_of};
ghost use Rattle.token.specs.States.{waited, Near, IfAccepted};
ghost use Rattle.token.specs.Deciding.{refusing, left_by, changing, telling, judging, decided};

use crate::answers::{Answer, Content, Refusal, Status, Success};
use crate::lines::{After, Fails, Line, Request, Way, allowed, line_of, state_refusal};
use crate::states::{accepted, failed, offset_after, repeated, waited, with_state};
use row::{Row, VOID};
use window::{Outcome, Seconds, check};

// What is left of a row: every byte the same; the row stored; or that and its key zeroed.
#[derive(Clone, Copy)]
pub enum Left {
    Same,
    Stored(Row),
    Voided(Row),
}

#[derive(Clone, Copy)]
pub struct Decision {
    pub answer: Answer,
    pub left: Left,
}

fn refusing(refusal: Refusal, row: Row) -> Decision
    ensures { result ≡ refusing refusal row }
{
    Decision {
        answer: Err(refusal),
        left: Left::Stored(row),
    }
}

// What follows a success.
fn left_by(after: After, row: Row) -> Left
    ensures { result ≡ left_by after row }
{
    match after {
        After::Kept => Left::Stored(row),
        After::Becomes(state) => Left::Stored(with_state(row, state)),
        After::Voided => Left::Voided(with_state(row, VOID)),
    }
}

fn changing(line: Line, row: Row) -> Decision
    ensures { result ≡ changing line row }
{
    Decision {
        answer: Ok(Success {
            number: line.success,
            content: Content::Plain,
        }),
        left: left_by(line.after, row),
    }
}

fn telling(line: Line, row: Row) -> Decision
    ensures { result ≡ telling line row }
{
    let status = Status {
        state: row.state,
        errors: row.errors,
        last_use: row.last_use,
    };
    Decision {
        answer: Ok(Success {
            number: line.success,
            content: Content::Queried(status),
        }),
        left: Left::Same,
    }
}

// The check's outcome decides: success, several, again, used, wrong. A password that several fresh steps have is no error: the next one will tell.
fn judging(line: Line, fails: Fails, row: Row, clock: Seconds, outcome: Outcome) -> Decision
    requires sound { Sound row.track clock.0 }
    requires if_accepted { IfAccepted (Near row.track clock.0) outcome }
    ensures { result ≡ judging line fails row clock.0 outcome }
{
    match outcome {
        Outcome::Accepted(a) => {
            let offset = offset_after(row.track, clock, a);
            let left = left_by(line.after, accepted(row, clock, a));
            Decision {
                answer: Ok(Success {
                    number: line.success,
                    content: Content::Checked(a, offset),
                }),
                left,
            }
        }
        Outcome::Several => refusing(fails.several, row),
        Outcome::Again => refusing(
            fails.used,
            repeated(row, clock, fails.forgives, fails.locks),
        ),
        Outcome::Used => refusing(fails.used, failed(row, clock, fails.locks)),
        Outcome::Wrong => refusing(fails.wrong, failed(row, clock, fails.locks)),
    }
}

// The answer to a request that names this token, and what is left of its row. Only a challenge login looks at the challenge.
pub fn decide(request: Request, row: Row, clock: Seconds, key: &[u8], challenge: &[u8]) -> Decision
    requires sound { Sound row.track clock.0 }
    requires challenge_value { in_range row.track.scheme key.now challenge.now ≡ true }
    ensures { result ≡ decided password_at request row key.now clock.0 challenge.now }
{
    let line = line_of(request);
    let found = waited(row, clock);
    if !allowed(line.needs, found.state) {
        return refusing(state_refusal(found.state), found);
    }
    match line.way {
        Way::Changes => changing(line, found),
        Way::Tells => telling(line, found),
        Way::Checks(asked, fails) => {
            if found.expiry.0 <= clock.0 {
                return refusing(Refusal::Expired, found);
            }
            let swept = check(found.track, clock, key, challenge, asked);
            judging(line, fails, found, clock, swept.outcome)
        }
    }
}

// What a query answers: it looks at no key and leaves every byte.
pub fn report(row: Row, clock: Seconds) -> Answer
    ensures { result ≡ (telling (line_of Request.Query) (waited row clock.0)).answer }
{
    telling(line_of(Request::Query), waited(row, clock)).answer
}
