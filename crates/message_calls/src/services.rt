// The services of Table D.5, their items (Table D.6) and options.
ghost use Rattle.std.specs.Prelude.{◌≡◌};
ghost use Rattle.words.specs.Lists.{one_of};
ghost use Rattle.message_calls.specs.Serving.{service_of, items_of, options_of};

// Those that have a call.
#[derive(Clone, Copy)]
pub enum Service {
    Login,
    ChallengeLogin,
    Activate,
    Lock,
    Unlock,
    Suspend,
    Resume,
    Sync,
    Void,
    Query,
}

pub(crate) const SERIAL: u32 = 0x0002;

pub(crate) const PASSWORD: u32 = 0x0003;

pub(crate) const FOLLOWING: u32 = 0x0004;

pub(crate) const CHALLENGE: u32 = 0x0006;

pub(crate) const RESPONSE: u32 = 0x0007;

#[tactic(auto, unfolding(crate::specs::Serving::service_of))]
pub(crate) fn service_of(number: u32) -> Option<Service>
    ensures { result ≡ service_of number }
{
    match number {
        0x0001 => Some(Service::Login),
        0x0002 => Some(Service::ChallengeLogin),
        0x0101 => Some(Service::Activate),
        0x0102 => Some(Service::Lock),
        0x0103 => Some(Service::Unlock),
        0x0104 => Some(Service::Suspend),
        0x0105 => Some(Service::Resume),
        0x0108 => Some(Service::Sync),
        0x010a => Some(Service::Void),
        0x010b => Some(Service::Query),
        _ => None,
    }
}

// The items of a call.
pub(crate) fn items_of(service: Service) -> &'static [u32]
    ensures { result.now ≡ items_of service }
{
    match service {
        Service::Login | Service::Unlock | Service::Resume => &[SERIAL, PASSWORD],
        Service::ChallengeLogin => &[SERIAL, CHALLENGE, RESPONSE],
        Service::Activate | Service::Sync => &[SERIAL, PASSWORD, FOLLOWING],
        Service::Lock | Service::Suspend | Service::Void | Service::Query => &[SERIAL],
    }
}

// A sync's options are 1 or 2, those of every other call 0.
pub(crate) fn options_fit(service: Service, options: u32) -> bool
    ensures { result ≡ one_of options (options_of service) }
{
    match service {
        Service::Sync => matches!(options, 1 | 2),
        _ => options == 0,
    }
}
