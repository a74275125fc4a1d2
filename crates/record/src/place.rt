// Where the records of a page stand: the head, each group with its four registers, the two periods.
ghost use Rattle.std.specs.Prelude.{◌≡◌, ℕ, ◌+◌, ◌*◌, ◌<◌, List, length};
ghost use Rattle.record.specs.Family.{run};
ghost use Rattle.record.specs.Pages.{pages};
ghost use Rattle.record.specs.Places.{order, span, Page, Stands, Behind};

use crate::kind::PageKind;
use crate::page::PageRecord;

// The place behind the head and so many groups with their registers: there the next group stands, or the first period.
fn behind_groups(groups: u32) -> usize
    ensures value { result ≡ 9 + 162 * groups }
    ensures behind { Behind groups result }
{
    9 + 162 * groups as usize
}

// How many bytes a page of so many groups has.
pub fn page_length(rows: u32) -> usize
    ensures value { result ≡ 93 + 162 * rows }
    ensures span { result ≡ span (order rows) }
    ensures length { (rs : List PageRecord) → Page rows rs → length (run pages rs) ≡ result }
{
    behind_groups(rows) + 84
}

// The place of the record of a group, counted from 0.
pub fn group_place(row: u32) -> usize
    ensures value { result ≡ 9 + 162 * row }
    ensures stands { (rows : ℕ) → row < rows → Stands rows (1 + 5 * row) PageKind.Group result }
{
    behind_groups(row)
}

// The place of the record of a group's register. A number is taken and no register, since a narrower type would ask more of callers:
// from 4 on it gives a place all the same, which is that of no such record.
pub fn register_place(row: u32, register: u8) -> usize
    ensures value { result ≡ 79 + 162 * row + 23 * register }
    ensures stands { (rows : ℕ) → row < rows → register < 4 → Stands rows (2 + 5 * row + register) PageKind.Register result }
{
    let group = behind_groups(row);
    group + 70 + 23 * usize::from(register)
}

// The place of the record of a period, in a page of so many groups. A number is taken here, too: from 2 on the place is that of no period.
pub fn period_place(rows: u32, period: u8) -> usize
    ensures value { result ≡ 9 + 162 * rows + 42 * period }
    ensures stands { period < 2 → Stands rows (1 + 5 * rows + period) PageKind.Period result }
{
    behind_groups(rows) + 42 * usize::from(period)
}
