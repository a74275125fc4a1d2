// The laws of every month, each as the contract of a function that does nothing else.
ghost use Rattle.ledger.specs.Steps.{Steps};
ghost use Rattle.ledger.specs.Promises.{AllLaws, Enrolments, StandingSums, Readings, Closing, SharesLaw, Reconciliation, PageBytes, OwnTables, Answers};

// All laws, for state and tables that any history leads to: what the contract of a call cites.
pub fn all_laws()
    ensures { AllLaws }
{}

// The connections of the table are those enrolled and not left; no code twice; the keys of groups rise.
pub fn enrolments()
    ensures { Enrolments }
{}

// A standing sum is the total over the connections in the group.
pub fn standing_sums()
    ensures { StandingSums }
{}

// A real volume of a profiled group is the signed sum of the advances read while their connections stood in the group.
pub fn readings()
    ensures { Readings }
{}

// Exchange and losses of divided quarters and all allocated volumes come to zero.
pub fn closing()
    ensures { Closing }
{}

// A divide writes volumes less than a watt-hour from their exact shares, and books exactly these.
pub fn shares()
    ensures { SharesLaw }
{}

// All reconciliation volumes of a settled month come to zero watt-hours, and all amounts to zero cents.
pub fn reconciliation()
    ensures { Reconciliation }
{}

// The bytes of a page are read again as the figures of the history, and balance.
pub fn page_bytes()
    ensures { PageBytes }
{}

// Own tables never give a refusal that only foreign tables can give.
pub fn own_tables()
    ensures { OwnTables }
{}

// An entry is accepted if and only if no check of the refusal table speaks, and else refused with the fault of the first that does.
pub fn answers()
    ensures { Answers }
{}

// Whoever does to state and tables what the model says of an entry has gone on with the history: each entry is an event.
pub fn entries_are_events()
    ensures { Steps }
{}
