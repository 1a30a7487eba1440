// The names of the calls, and how many fields a line of each has.
ghost use Rattle.std.specs.Prelude.{◌≡◌, ◌≤◌};
ghost use Rattle.call_lines.specs.Line.{text_of, name_of, count_of};

use words::bytes::same;

#[derive(Clone, Copy)]
pub enum Name {
    Load,
    Login,
    Challenge,
    Activate,
    Lock,
    Suspend,
    Void,
    Query,
    Unlock,
    Resume,
    Sync,
}

const NAMES: [Name; 11] = [
    Name::Load,
    Name::Login,
    Name::Challenge,
    Name::Activate,
    Name::Lock,
    Name::Suspend,
    Name::Void,
    Name::Query,
    Name::Unlock,
    Name::Resume,
    Name::Sync,
];

impl Name {
    // As the first field of a line has it.
    fn text(self) -> &'static [u8]
        ensures { result.now ≡ text_of self }
    {
        match self {
            Name::Load => b"load",
            Name::Login => b"login",
            Name::Challenge => b"challenge",
            Name::Activate => b"activate",
            Name::Lock => b"lock",
            Name::Suspend => b"suspend",
            Name::Void => b"void",
            Name::Query => b"query",
            Name::Unlock => b"unlock",
            Name::Resume => b"resume",
            Name::Sync => b"sync",
        }
    }

    // The count of fields of a line, its name among them.
    pub(crate) fn count(self) -> usize
        ensures value { result ≡ count_of self }
        ensures lower_bound { 3 ≤ result }
    {
        match self {
            Name::Load => 10,
            Name::Login => 4,
            Name::Challenge => 5,
            Name::Activate => 5,
            Name::Lock => 3,
            Name::Suspend => 3,
            Name::Void => 3,
            Name::Query => 3,
            Name::Unlock => 4,
            Name::Resume => 4,
            Name::Sync => 6,
        }
    }
}

// The name that the first field of a line is. Of a `match` on the bytes three names already left goals open.
pub(crate) fn name_of(field: &[u8]) -> Option<Name>
    ensures { result ≡ name_of field.now }
{
    NAMES.iter().find(|name| same(field, name.text())).copied()
}
