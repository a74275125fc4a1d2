// What can be posted to a quarter.
ghost use Rattle.std.specs.Prelude.{◌≡◌};
ghost use Rattle.ledger.specs.Postings.{Numbers, posting_number, numbered_kind};

// Exchange with other grids, measured volumes and grid losses, each with its way.
#[derive(Clone, Copy, PartialEq, Eq, Debug)]
pub enum PostingKind {
    ExchangeIn = 1,
    ExchangeOut = 2,
    MeasuredOfftake = 3,
    MeasuredFeedIn = 4,
    LossOfftake = 5,
    LossFeedIn = 6,
}

// A number that no kind of posting has.
#[derive(Clone, Copy, PartialEq, Eq, Debug)]
pub struct UnknownPosting(pub u8);

impl From<PostingKind> for u8 {
    ghost from_gives = { λ kind number. number ≡ posting_number kind };

    fn from(kind: PostingKind) -> u8 {
        kind as u8
    }
}

impl TryFrom<u8> for PostingKind {
    type Error = UnknownPosting;

    ghost try_from_gives = { Numbers };

    fn try_from(number: u8) -> Result<PostingKind, UnknownPosting> {
        match number {
            1 => Ok(PostingKind::ExchangeIn),
            2 => Ok(PostingKind::ExchangeOut),
            3 => Ok(PostingKind::MeasuredOfftake),
            4 => Ok(PostingKind::MeasuredFeedIn),
            5 => Ok(PostingKind::LossOfftake),
            6 => Ok(PostingKind::LossFeedIn),
            _ => Err(UnknownPosting(number)),
        }
    }
}

// The two conversions by the names that callers have for them.
impl PostingKind {
    pub fn number(self) -> u8
        ensures { result ≡ posting_number self }
    {
        u8::from(self)
    }

    // The kind with a number, if there is one.
    pub fn of_number(number: u8) -> Option<PostingKind>
        ensures { result ≡ numbered_kind number }
    {
        PostingKind::try_from(number).ok()
    }
}
