// Rows moved up or down by one place, in lent memory of which the first `len` rows are live: a length beside a slice as in the table, whose memory it is.
ghost use Rattle.std.specs.Prelude.{◌≡◌, ◌+◌, ◌-◌, ◌<◌, ◌≤◌, ◌++◌, length, take, drop, slice_index_or, slice_set};
ghost use Rattle.std.specs.List.{insert, remove};

use std::mem;

// Puts a row at the place: the live rows from there on move up by one.
#[tactic(auto, using(crate::proofs::Memory::opened))]
pub(crate) fn open_at<R: Copy>(rows: &mut [R], len: usize, place: usize, row: R)
    requires among { place ≤ len }
    requires room { len < length rows.old }
    ensures { rows.new ≡ insert (take len rows.old) place row ++ drop (len + 1) rows.old }
{
    rows.copy_within(place..len, place + 1);
    rows[place] = row;
}

// Takes the row at the place out, which is the answer: the live rows above it move down by one.
#[tactic(auto, using(crate::proofs::Memory::closed))]
pub(crate) fn close_at<R: Copy>(rows: &mut [R], len: usize, place: usize) -> R
    requires among { place < len }
    requires within { len ≤ length rows.old }
    ensures row { result ≡ slice_index_or rows.old place result }
    ensures after { rows.new ≡ remove (take len rows.old) place ++ drop (len - 1) rows.old }
{
    let row = rows[place];
    rows.copy_within(place + 1..len, place);
    row
}

// Puts a row over the one at the place, which is the answer.
pub(crate) fn put_at<R: Copy>(rows: &mut [R], place: usize, row: R) -> R
    requires { place < length rows.old }
    ensures row { result ≡ slice_index_or rows.old place result }
    ensures after { rows.new ≡ slice_set rows.old place row }
{
    mem::replace(&mut rows[place], row)
}
