// The requests to a token, and Part 5's table of them: a line for each.
ghost use Rattle.std.specs.Prelude.{◌≡◌};
ghost use Rattle.token.specs.Lines.{listed, line_of, allowed, state_refusal};

use crate::answers::Refusal;
use otp::typed::Password;
use row::{EMPTY, LOCKED_BY_ERRORS, LOCKED_BY_HAND, NOT_ACTIVATED, READY, SUSPENDED, VOID};
use window::{Asked, Size};

// What is asked of a token, with the passwords; a challenge is lent beside it.
#[derive(Clone, Copy)]
pub enum Request {
    Login(Password),
    ChallengeLogin(Password),
    Activate(Password, Password),
    Lock,
    Unlock(Password),
    Suspend,
    Resume(Password),
    Sync(Size, Password, Password),
    Void,
    Query,
}

// What a password that several fresh steps have is called, which no pair is, a used one and a wrong one, whether errors lock the token, and whether a
// double press is none.
#[derive(Clone, Copy)]
pub struct Fails {
    pub several: Refusal,
    pub used: Refusal,
    pub wrong: Refusal,
    pub locks: bool,
    pub forgives: bool,
}

const AT_LOGIN: Fails = Fails {
    several: Refusal::NextAtLogin,
    used: Refusal::UsedAtLogin,
    wrong: Refusal::WrongAtLogin,
    locks: true,
    forgives: true,
};

const AT_SYNC: Fails = Fails {
    several: Refusal::NextWanted,
    used: Refusal::Used,
    wrong: Refusal::WrongAtSync,
    locks: false,
    forgives: false,
};

const ELSEWHERE: Fails = Fails {
    several: Refusal::NextWanted,
    used: Refusal::Used,
    wrong: Refusal::Wrong,
    locks: false,
    forgives: false,
};

// States in a row, from the lowest to the highest.
#[derive(Clone, Copy)]
pub struct States {
    pub lowest: u8,
    pub highest: u8,
}

// The states that a request needs; none where it needs no particular one.
const IF_INACTIVE: Option<States> = Some(States {
    lowest: NOT_ACTIVATED,
    highest: NOT_ACTIVATED,
});

const IF_READY: Option<States> = Some(States {
    lowest: READY,
    highest: READY,
});

const IF_LOCKED: Option<States> = Some(States {
    lowest: LOCKED_BY_ERRORS,
    highest: LOCKED_BY_HAND,
});

const IF_IN_USE: Option<States> = Some(States {
    lowest: READY,
    highest: LOCKED_BY_HAND,
});

const IF_SUSPENDED: Option<States> = Some(States {
    lowest: SUSPENDED,
    highest: SUSPENDED,
});

const IF_NOT_VOID: Option<States> = Some(States {
    lowest: NOT_ACTIVATED,
    highest: SUSPENDED,
});

// What a request does in a state that it needs: it changes the state, tells what the row says, or checks passwords.
#[derive(Clone, Copy)]
pub enum Way {
    Changes,
    Tells,
    Checks(Asked, Fails),
}

// What follows a success: the state is kept or becomes another; a void token's key is zeroed too.
#[derive(Clone, Copy)]
pub enum After {
    Kept,
    Becomes(u8),
    Voided,
}

// A line of the table: the needed states, what is done, the success's number, and what follows.
#[derive(Clone, Copy)]
pub struct Line {
    pub needs: Option<States>,
    pub way: Way,
    pub success: u16,
    pub after: After,
}

fn listed(needs: Option<States>, way: Way, success: u16, after: After) -> Line
    ensures { result ≡ listed needs way success after }
{
    Line {
        needs,
        way,
        success,
        after,
    }
}

// Part 5's table.
pub(crate) fn line_of(request: Request) -> Line
    ensures { result ≡ line_of request }
{
    match request {
        Request::Login(p) => {
            let way = Way::Checks(Asked::One(Size::Small, p), AT_LOGIN);
            listed(IF_READY, way, 0x0001, After::Kept)
        }
        Request::ChallengeLogin(p) => {
            let way = Way::Checks(Asked::Challenged(Size::Small, p), AT_LOGIN);
            listed(IF_READY, way, 0x0002, After::Kept)
        }
        Request::Activate(p, q) => {
            let way = Way::Checks(Asked::Two(Size::Large, p, q), ELSEWHERE);
            listed(IF_INACTIVE, way, 0x0101, After::Becomes(READY))
        }
        Request::Lock => listed(
            IF_READY,
            Way::Changes,
            0x0102,
            After::Becomes(LOCKED_BY_HAND),
        ),
        Request::Unlock(p) => {
            let way = Way::Checks(Asked::One(Size::Small, p), ELSEWHERE);
            listed(IF_LOCKED, way, 0x0103, After::Becomes(READY))
        }
        Request::Suspend => listed(IF_IN_USE, Way::Changes, 0x0104, After::Becomes(SUSPENDED)),
        Request::Resume(p) => {
            let way = Way::Checks(Asked::One(Size::Small, p), ELSEWHERE);
            listed(IF_SUSPENDED, way, 0x0105, After::Becomes(READY))
        }
        Request::Sync(size, p, q) => {
            let way = Way::Checks(Asked::Two(size, p, q), AT_SYNC);
            listed(IF_IN_USE, way, 0x0108, After::Kept)
        }
        Request::Void => listed(IF_NOT_VOID, Way::Changes, 0x010a, After::Voided),
        Request::Query => listed(None, Way::Tells, 0x010b, After::Kept),
    }
}

pub(crate) fn allowed(needs: Option<States>, state: u8) -> bool
    ensures { result ≡ allowed needs state }
{
    match needs {
        None => true,
        Some(states) => (states.lowest <= state) & (state <= states.highest),
    }
}

// What a call says in a state that is not the needed one. An empty row is no row; the desk finds none such.
pub(crate) fn state_refusal(state: u8) -> Refusal
    ensures { result ≡ state_refusal state }
{
    match state {
        READY => Refusal::Ready,
        SUSPENDED => Refusal::Suspended,
        NOT_ACTIVATED => Refusal::Inactive,
        VOID => Refusal::Void,
        EMPTY => Refusal::Unknown,
        _ => Refusal::Locked,
    }
}
