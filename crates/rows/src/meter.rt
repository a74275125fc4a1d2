// What meters count between two stands.
ghost use Rattle.std.specs.Prelude.{◌≡◌, ℕ, ◌+◌, ◌-◌, ◌%◌, ◌<◌, ◌≤◌, Some, None, slice_index};
ghost use Rattle.rows.specs.Connections.{advance, digits_of, row_advance, span};
ghost use Rattle.rows.specs.Metering.{meter_of, MeterFound};
ghost use Rattle.rows.specs.Registers.{four};

use crate::connection::{ConnectionRow, Digits};

const WH_PER_KWH: u64 = 1_000;

// A number of digits that no meter shows.
#[derive(Clone, Copy, PartialEq, Eq, Debug)]
pub struct NoMeter(pub u64);

impl TryFrom<u64> for Digits {
    type Error = NoMeter;

    ghost try_from_gives = { MeterFound };

    fn try_from(count: u64) -> Result<Digits, NoMeter> {
        match count {
            5 => Ok(Digits::Five),
            6 => Ok(Digits::Six),
            _ => Err(NoMeter(count)),
        }
    }
}

impl Digits {
    // The meter of 5 or 6 digits; there is no other. It is the conversion by the name that callers have for it.
    pub fn from_count(count: u64) -> Option<Digits>
        ensures value { result ≡ meter_of count }
        ensures digits { elim result [ Some digits ↦ digits ≡ digits_of count | None ↦ Unit {0} ] }
    {
        Digits::try_from(count).ok()
    }

    // The stands that the meter can show are below this.
    pub fn span(self) -> u32
        ensures value { result ≡ span self }
        ensures bounds { (0 < result) × (result ≤ 1000000) }
    {
        match self {
            Digits::Five => 100_000,
            Digits::Six => 1_000_000,
        }
    }
}

// The kWh from one stand to another, on a meter that may have rolled over.
fn counted(span: u32, old: u32, new: u32) -> u64
    requires { (0 < span) × (span ≤ 1000000) }
    ensures value { result ≡ (new + span - old % span) % span }
    ensures bound { result < 1000000 }
{
    let span = u64::from(span);
    (u64::from(new) + span - u64::from(old) % span) % span
}

// What a register counted, in Wh.
pub fn advance(digits: Digits, factor: u8, old: u32, new: u32) -> u64
    ensures value { result ≡ advance digits factor old new }
    ensures bound { result ≤ 254999745000 }
{
    counted(digits.span(), old, new) * u64::from(factor) * WH_PER_KWH
}

impl ConnectionRow {
    // What each register counted from its stand to the new one, in Wh.
    pub fn advances(&self, stands: &[u32; 4]) -> [u64; 4]
        ensures value { result ≡ four (row_advance self.now stands.now) }
        ensures bound { (k : ℕ) → k < 4 → slice_index result k ≤ 254999745000 }
    {
        std::array::from_fn(|r| advance(self.digits, self.factor, self.stands[r], stands[r]))
    }
}
