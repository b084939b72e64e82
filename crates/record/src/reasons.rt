// Reason codes (000, Table 6): why a Join is refused, and why a channel is left.

ghost use Rattle.std.specs.Prelude.{◌≡◌};
ghost use Rattle.record.specs.Reasons.{number_of, Reads, leaving_reason};

#[derive(Clone, Copy, Debug, PartialEq, Eq)]
pub enum Reason {
    Nonspecific = 1,
    IllegalParameters = 2,
    LowResources = 3,
    AlreadyMember = 4,
    BadAddress = 5,
    NoReciprocal = 6,
    ChannelExpired = 7,
    LostSequence = 8,
    Saturated = 9,
    AddressChanging = 10,
    AskedToLeave = 11,
}

// A number that Table 6 does not have.
#[derive(Clone, Copy, Debug, PartialEq, Eq)]
pub struct NoReason;

impl Reason {
    // Whether a Leaving may carry it (figure 18).
    #[tactic(auto, unfolding(crate::specs::Reasons::leaving_reason))]
    fn is_of_leaving(self) -> bool
        ensures { result ≡ leaving_reason (number_of self) }
    {
        matches!(
            self,
            Reason::Nonspecific
                | Reason::NoReciprocal
                | Reason::ChannelExpired
                | Reason::LostSequence
                | Reason::Saturated
                | Reason::AddressChanging
                | Reason::AskedToLeave
        )
    }
}

impl From<Reason> for u8 {
    ghost from_gives = { λ reason n. n ≡ number_of reason };

    fn from(reason: Reason) -> u8 {
        reason as u8
    }
}

impl TryFrom<u8> for Reason {
    type Error = NoReason;

    ghost try_from_gives = { Reads };

    fn try_from(n: u8) -> Result<Reason, NoReason> {
        match n {
            1 => Ok(Reason::Nonspecific),
            2 => Ok(Reason::IllegalParameters),
            3 => Ok(Reason::LowResources),
            4 => Ok(Reason::AlreadyMember),
            5 => Ok(Reason::BadAddress),
            6 => Ok(Reason::NoReciprocal),
            7 => Ok(Reason::ChannelExpired),
            8 => Ok(Reason::LostSequence),
            9 => Ok(Reason::Saturated),
            10 => Ok(Reason::AddressChanging),
            11 => Ok(Reason::AskedToLeave),
            _ => Err(NoReason),
        }
    }
}

// Whether a Leaving may carry this number as its reason.
#[tactic(auto, using(crate::proofs::Unread::no_reason))]
pub fn is_leaving_reason(reason: u8) -> bool
    ensures { result ≡ leaving_reason reason }
{
    Reason::try_from(reason).is_ok_and(|r| r.is_of_leaving())
}
