ghost use Rattle.allocation.specs.Worked.{Worked};

// The worked quarters, from the definitions that the other contracts cite.
pub fn worked_quarters()
    ensures { Worked }
{}
