ghost use Rattle.ledger.specs.Worked.{Worked};

// The worked cases of rows and entries, from the definitions that the other contracts cite.
pub fn worked_entries()
    ensures { Worked }
{}
