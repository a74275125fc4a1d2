// Rows at the start: of a group to which nothing was booked, and of a quarter in which nothing was posted.
ghost use Rattle.std.specs.Prelude.{◌≡◌, map};
ghost use Rattle.rows.specs.Blank.{no_connection};
ghost use Rattle.rows.specs.Groups.{blank, cleared};

use crate::connection::{ConnectionRow, Digits};
use crate::group::{Group, GroupRow};

impl GroupRow {
    // The row of a group to which nothing was booked.
    pub fn blank(group: Group) -> GroupRow
        ensures { result ≡ blank group }
    {
        GroupRow {
            group,
            standing: [0; 4],
            quarter: [0; 2],
            month: [0; 4],
            real: [0; 4],
        }
    }
}

impl ConnectionRow {
    // A row that stands for nothing, for memory that a host lends: all numbers 0, on a meter of five digits.
    pub fn blank() -> ConnectionRow
        ensures { result ≡ no_connection }
    {
        ConnectionRow {
            code: 0,
            brp: 0,
            supplier: 0,
            class: 0,
            digits: Digits::Five,
            factor: 0,
            volumes: [0; 4],
            stands: [0; 4],
            mark: 0,
        }
    }
}

// Takes a row's quarter volumes out.
fn clear_quarter(row: &mut GroupRow)
    ensures { row.new ≡ cleared row.old }
{
    row.quarter = [0; 2];
}

// Takes the quarter volumes of every row out, at the opening of a quarter.
pub fn clear_quarters(rows: &mut [GroupRow])
    ensures { rows.new ≡ map cleared rows.old }
{
    for row in rows.iter_mut() {
        clear_quarter(row);
    }
}
