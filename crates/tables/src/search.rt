// The look-up by key in a slice of rows, in about log2(n) comparisons.
ghost use Rattle.std.specs.Prelude.{◌≤◌, length};
ghost use Rattle.tables.specs.Rules.{Rising, Found, AllBefore, NoneBefore, PlaceWithin};

use crate::row::Row;

// The place of the first row whose key is not before `wanted`; the number of rows if there is none.
// A loop by hand: by the library's `partition_point` look-ups in tables of up to a few hundred rows took up to twice the time.
fn first_not_before<R: Row>(rows: &[R], wanted: &R::Key) -> usize
    ensures within { result ≤ length rows.now }
    ensures split { Rising R.rules rows.now → AllBefore R.rules rows.now wanted.now result × NoneBefore R.rules rows.now wanted.now result }
{
    let mut low = 0;
    let mut high = rows.len();
    while low < high {
        let middle = low + (high - low) / 2;
        if R::before(&rows[middle].key(), wanted) {
            low = middle + 1;
        } else {
            high = middle;
        }
    }
    low
}

// The place of the row with the key, or else the place where such a row would go.
pub(crate) fn find_row<R: Row>(rows: &[R], wanted: &R::Key) -> Result<usize, usize>
    ensures within { PlaceWithin rows.now result }
    ensures found { Rising R.rules rows.now → Found R.rules rows.now wanted.now result }
{
    let place = first_not_before(rows, wanted);
    match rows.get(place) {
        Some(row) if !R::before(wanted, &row.key()) => Ok(place),
        _ => Err(place),
    }
}
