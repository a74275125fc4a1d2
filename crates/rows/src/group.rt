// What the book keeps of a group.
ghost use Rattle.std.specs.Prelude.{◌≡◌};
ghost use Rattle.rows.specs.Groups.{has_profile};

// A BRP, a supplier or a loss party. Wide enough for the largest, and no wider than its field on the page, so that every row can be written there.
pub type Party = u16;

// Who is booked together: a BRP, a supplier and a class. Class 0 holds measured volumes.
#[derive(Clone, Copy, PartialEq, Eq, PartialOrd, Ord)]
pub struct Group {
    pub brp: Party,
    pub supplier: Party,
    pub class: u8,
}

// The sums and volumes of a group, by register or, within a quarter, by direction.
#[derive(Clone, Copy)]
pub struct GroupRow {
    pub group: Group,
    // standard year volumes of its connections, in kWh
    pub standing: [u64; 4],
    // within a quarter, in Wh: of class 0 what was posted; else the weights, and after the division the corrected volumes.
    // An array like the others, which are by register: the definitions of months read all four by number.
    pub quarter: [i64; 2],
    // what was allocated to it over the month, in Wh
    pub month: [i64; 4],
    // what its meters counted, in Wh
    pub real: [i64; 4],
}

impl GroupRow {
    // Whether the group has a profile. Class 0 has none: its volumes are measured.
    pub(crate) fn has_profile(&self) -> bool
        ensures { result ≡ has_profile self.now }
    {
        self.group.class != 0
    }
}
