// The kinds of records, each with its number and the length of its body.
ghost use Rattle.std.specs.Prelude.{◌≡◌, ℕ, List};
ghost use Rattle.record.specs.Format.{Form, total};
ghost use Rattle.record.specs.Family.{numbered, OfNumber};
ghost use Rattle.record.specs.Kinds.{entry_number, entry_kinds, entry_kind, entry_layout, page_number, page_kinds, page_kind, page_layout};

// The methods `number`, `of_number` and `length` of both kinds stand beside the conversions and the trait, since callers have them without either.

// A byte that is the number of no kind.
#[derive(Clone, Copy, PartialEq, Eq, Debug)]
pub struct NoKind(pub u8);

// What the kinds of a stream and those of a page have in common: all that it takes to find where a record ends.
pub(crate) trait Kind: Copy {
    ghost number_of: { Self → ℕ };

    // every kind, once
    ghost kinds: { List Self };

    // the fields of a body
    ghost layout: { Self → List Form };

    // The kind that has this number.
    fn of_number(number: u8) -> Option<Self>
        ensures { result ≡ numbered number_of kinds number };

    // How many bytes follow the kind.
    fn length(self) -> usize
        ensures { result ≡ total (layout self) };
}

// The kinds of entries of a stream.
#[derive(Clone, Copy, PartialEq, Eq, Debug)]
pub enum EntryKind {
    Begin = 16,
    Enrol = 17,
    Read = 18,
    Switch = 19,
    Leave = 20,
    Open = 21,
    Post = 22,
    Weigh = 23,
    PutBack = 24,
    Divide = 25,
    Withdraw = 26,
    Settle = 27,
}

impl TryFrom<u8> for EntryKind {
    type Error = NoKind;

    ghost try_from_gives = { OfNumber entry_number entry_kinds };

    fn try_from(number: u8) -> Result<EntryKind, NoKind> {
        match number {
            16 => Ok(EntryKind::Begin),
            17 => Ok(EntryKind::Enrol),
            18 => Ok(EntryKind::Read),
            19 => Ok(EntryKind::Switch),
            20 => Ok(EntryKind::Leave),
            21 => Ok(EntryKind::Open),
            22 => Ok(EntryKind::Post),
            23 => Ok(EntryKind::Weigh),
            24 => Ok(EntryKind::PutBack),
            25 => Ok(EntryKind::Divide),
            26 => Ok(EntryKind::Withdraw),
            27 => Ok(EntryKind::Settle),
            _ => Err(NoKind(number)),
        }
    }
}

impl From<EntryKind> for u8 {
    ghost from_gives = { λ kind number. number ≡ entry_number kind };

    fn from(kind: EntryKind) -> u8 {
        kind as u8
    }
}

impl EntryKind {
    pub fn number(self) -> u8
        ensures { result ≡ entry_number self }
    {
        u8::from(self)
    }

    // The kind that has this number.
    pub fn of_number(number: u8) -> Option<EntryKind>
        ensures { result ≡ entry_kind number }
    {
        EntryKind::try_from(number).ok()
    }

    // How many bytes follow the kind.
    pub fn length(self) -> usize
        ensures { result ≡ total (entry_layout self) }
    {
        match self {
            EntryKind::Begin => 4,
            EntryKind::Enrol => 47,
            EntryKind::Read => 24,
            EntryKind::Switch => 12,
            EntryKind::Leave => 8,
            EntryKind::Open => 5,
            EntryKind::Post => 9,
            EntryKind::Weigh
            | EntryKind::PutBack
            | EntryKind::Divide
            | EntryKind::Withdraw
            | EntryKind::Settle => 0,
        }
    }
}

impl Kind for EntryKind {
    ghost number_of = { entry_number };

    ghost kinds = { entry_kinds };

    ghost layout = { entry_layout };

    fn of_number(number: u8) -> Option<EntryKind> {
        EntryKind::of_number(number)
    }

    fn length(self) -> usize {
        EntryKind::length(self)
    }
}

// The kinds of records that the book writes: those of a page, and the fault of a refused entry.
#[derive(Clone, Copy, PartialEq, Eq, Debug)]
pub enum PageKind {
    Head = 1,
    Group = 2,
    Period = 3,
    Register = 4,
    Refusal = 6,
}

impl TryFrom<u8> for PageKind {
    type Error = NoKind;

    ghost try_from_gives = { OfNumber page_number page_kinds };

    fn try_from(number: u8) -> Result<PageKind, NoKind> {
        match number {
            1 => Ok(PageKind::Head),
            2 => Ok(PageKind::Group),
            3 => Ok(PageKind::Period),
            4 => Ok(PageKind::Register),
            6 => Ok(PageKind::Refusal),
            _ => Err(NoKind(number)),
        }
    }
}

impl From<PageKind> for u8 {
    ghost from_gives = { λ kind number. number ≡ page_number kind };

    fn from(kind: PageKind) -> u8 {
        kind as u8
    }
}

impl PageKind {
    pub fn number(self) -> u8
        ensures { result ≡ page_number self }
    {
        u8::from(self)
    }

    // The kind that has this number.
    pub fn of_number(number: u8) -> Option<PageKind>
        ensures { result ≡ page_kind number }
    {
        PageKind::try_from(number).ok()
    }

    // How many bytes follow the kind.
    pub fn length(self) -> usize
        ensures { result ≡ total (page_layout self) }
    {
        match self {
            PageKind::Head => 8,
            PageKind::Group => 69,
            PageKind::Period => 41,
            PageKind::Register => 22,
            PageKind::Refusal => 26,
        }
    }
}

impl Kind for PageKind {
    ghost number_of = { page_number };

    ghost kinds = { page_kinds };

    ghost layout = { page_layout };

    fn of_number(number: u8) -> Option<PageKind> {
        PageKind::of_number(number)
    }

    fn length(self) -> usize {
        PageKind::length(self)
    }
}
