// The causes of refusal, and what each can name. Each has a type of its own, so that a byte place is never taken for a length.

// The place of an argument in its entry, counted from 1.
#[derive(Clone, Copy, PartialEq, Eq, Debug)]
pub struct Position(pub u8);

// The code of a connection.
#[derive(Clone, Copy, PartialEq, Eq, Debug)]
pub struct Code(pub u64);

// A quarter-hour of the month, counted from 0.
#[derive(Clone, Copy, PartialEq, Eq, Debug)]
pub struct Quarter(pub u32);

// A number of bytes.
#[derive(Clone, Copy, PartialEq, Eq, Debug)]
pub struct Length(pub u64);

// The place of a byte in a stream or a page, counted from 0.
#[derive(Clone, Copy, PartialEq, Eq, Debug)]
pub struct BytePlace(pub u64);

// What a profile source is asked for: the fraction of a class, a direction and a quarter. These are numbers and no kinds: a source may be asked anything, and names what it was asked.
#[derive(Clone, Copy, PartialEq, Eq, Debug)]
pub struct Question {
    pub class: u8,
    pub direction: u8,
    pub quarter: Quarter,
}

// Which way energy flows: out of the grid to a connection, or from it into the grid.
#[derive(Clone, Copy, PartialEq, Eq, Debug)]
pub enum Direction {
    Offtake = 0,
    FeedIn = 1,
}

// The tariff period of a quarter.
#[derive(Clone, Copy, PartialEq, Eq, Debug)]
pub enum Period {
    Normal = 0,
    Low = 1,
}

// One of the four counters of a meter.
#[derive(Clone, Copy, PartialEq, Eq, Debug)]
pub struct Register {
    pub direction: Direction,
    pub period: Period,
}

// Which of the book's two tables.
#[derive(Clone, Copy, PartialEq, Eq, Debug)]
pub enum TableKind {
    Connections = 1,
    Groups = 2,
}

// The bounds that keep every sum exact.
#[derive(Clone, Copy, PartialEq, Eq, Debug)]
pub enum Limit {
    // the total T of a quarter's weights
    Weights = 1,
    // the size of a quarter's residual R
    Residual = 2,
    // all watt-hours posted in a quarter
    Postings = 3,
    // a standing sum
    StandingSum = 4,
    // all advances of the month
    Advances = 5,
    // a month volume, a real volume or a running total S
    Volume = 6,
}

// The causes for which an entry is refused, in the order of their numbers.
// A new cause is a case here, a line of `notice` in specs/, an arm of `Fault::notice` and one of `Display`.
#[derive(Clone, Copy, PartialEq, Eq, Debug)]
pub enum Fault {
    // an argument outside its range
    OutOfRange(Position),
    // enrol: code 0, too long, or its check digit wrong
    BadCode(Code),
    // enrol: the code is enrolled already
    CodePresent(Code),
    // no connection has this code
    NotEnrolled(Code),
    // a stand that the meter's digits cannot show
    StandTooLarge(Register),
    // a row that the entry needs has no place in its table
    NoPlace(TableKind),
    // open after the month's last quarter
    MonthFull(Quarter),
    // settle before the month's last quarter
    MonthUnfinished(Quarter),
    // switch, leave, settle: the connection was not read at the running quarter
    NotRead(Code),
    // weigh: the source has no fraction; the question as it was asked
    FractionAbsent(Question),
    // tables that do not belong to this state
    ForeignTables,
    // a sum beyond its bound
    LimitPassed(Limit),
    // weigh: a residual, and no weight to carry it
    NothingToShare(Quarter),
    // the lent memory is shorter than the page, whose length this is
    PageTooShort(Length),
    // the state does not admit the entry
    NotAdmitted(BytePlace),
    // a kind of entry that nobody knows
    UnknownKind(BytePlace),
    // an entry that the stream breaks off
    CutEntry(BytePlace),
}
