// The keyed table: rows in strictly rising key order at the front of lent memory.
ghost use Rattle.std.specs.Prelude.{◌≡◌, ◌<◌, ◌≤◌, [], length, IfOk, Ok, OnErr};
ghost use Rattle.std.specs.Option.{option_map};
ghost use Rattle.std.specs.List.{slice_get};
ghost use Rattle.tables.specs.Rules.{Found, PlaceWithin};

use crate::row::Row;
use crate::search::find_row;
use crate::shift::{close_at, open_at, put_at};
use fault::Fault;

// The first `len` rows are live. A length beside a slice, since the memory is the caller's and the table allocates nothing.
// Only this crate can reach the fields, and `len` never passes the memory; `rows` lends no more than there is, so that every method is safe whatever the fields hold. No ghost field says so, since a caller could do less with the type then: take it by value and change it, put it in an array or in a generic type of its own.
#[derive(Drop)]
pub struct Table<'a, R: Row> {
    pub(crate) rows: &'a mut [R],
    pub(crate) len: usize,
}

impl<'a, R: Row> Table<'a, R> {
    ghost use Rattle.tables.specs.Tables.{Free, Inserted, Inserts, Keeps, Places, Removed, Removes, Replaced, Replaces, Seeks, Sound, Stays, live, memory};

    // A table with no row over the lent memory.
    pub fn new(rows: &'a mut [R]) -> Table<'a, R>
        ensures sound { Sound R.rules result }
        ensures rows { live result ≡ [] }
        ensures memory { memory result ≡ rows.old }
        ensures lent { result.rows.ghost_name ≡ rows.entry.ghost_name }
    {
        Table { rows, len: 0 }
    }

    // The live rows, to read.
    #[tactic(auto, using(crate::proofs::Memory::take_clamped))]
    pub fn rows(&self) -> &[R]
        ensures rows { result.now ≡ live self.now }
        ensures within { length result.now ≤ length (memory self.now) }
    {
        &self.rows[..self.len.min(self.rows.len())]
    }

    // The number of live rows.
    pub fn len(&self) -> usize
        ensures rows { result ≡ length (live self.now) }
        ensures within { result ≤ length (memory self.now) }
    {
        self.rows().len()
    }

    // The row at a place, counted from 0.
    pub fn get(&self, place: usize) -> Option<&R>
        ensures { option_map (λ x. x.now) result ≡ slice_get (live self.now) place }
    {
        self.rows().get(place)
    }

    // The place of the row with the key, or else the place where such a row would go.
    pub fn find(&self, wanted: &R::Key) -> Result<usize, usize>
        ensures within { PlaceWithin (live self.now) result }
        ensures found { Sound R.rules self.now → Found R.rules (live self.now) wanted.now result }
    {
        find_row(self.rows(), wanted)
    }

    // The place of the row with the key, or the fault that no row has it.
    pub fn seek(&self, wanted: &R::Key) -> Result<usize, Fault>
        ensures within { IfOk result (λ place. place < length (live self.now)) }
        ensures sought { Sound R.rules self.now → Seeks R.rules self.now wanted.now result }
    {
        self.find(wanted).map_err(|_| R::absent(wanted))
    }

    // The place for a row with the key, or the fault why none goes in.
    fn place_for(&self, wanted: &R::Key) -> Result<usize, Fault>
        ensures free { IfOk result (λ place. Free R.rules self.now place) }
        ensures places { Sound R.rules self.now → Places R.rules self.now wanted.now result }
    {
        match self.find(wanted) {
            Ok(_) => Err(R::present(wanted)),
            Err(place) => {
                if self.len() < R::most().min(self.rows.len()) {
                    Ok(place)
                } else {
                    Err(R::full(wanted))
                }
            }
        }
    }

    // Puts a row in, at the place of its key, which is the answer. Refused if a row has the key already, or else if there is no place.
    pub fn insert(&mut self, row: R) -> Result<usize, Fault>
        ensures refused { OnErr result (self.new ≡ self.old) }
        ensures stays { Stays R.rules self.old self.new }
        ensures inserted { Sound R.rules self.old → Inserts R.rules self.old row result self.new }
    {
        let place = self.place_for(&row.key())?;
        self.add_at(place, row);
        Ok(place)
    }

    // Takes the row with the key out, and answers it. Refused if no row has the key.
    pub fn remove(&mut self, wanted: &R::Key) -> Result<R, Fault>
        ensures refused { OnErr result (self.new ≡ self.old) }
        ensures stays { Stays R.rules self.old self.new }
        ensures removed { Sound R.rules self.old → Removes R.rules self.old wanted.now result self.new }
    {
        let place = self.seek(wanted)?;
        Ok(self.take_at(place))
    }

    // Puts a row in the place of the one with its key, and answers that one. Refused if no row has the key.
    pub fn replace(&mut self, row: R) -> Result<R, Fault>
        ensures refused { OnErr result (self.new ≡ self.old) }
        ensures stays { Stays R.rules self.old self.new }
        ensures replaced { Sound R.rules self.old → Replaces R.rules self.old row result self.new }
    {
        let place = self.seek(&row.key())?;
        Ok(self.exchange_at(place, row))
    }

    // Lets every row go; the memory stays lent, to be used again.
    pub fn empty(&mut self)
        ensures sound { Sound R.rules self.new }
        ensures rows { live self.new ≡ [] }
        ensures memory { memory self.new ≡ memory self.old }
        ensures lent { self.new.rows.ghost_name ≡ self.old.rows.ghost_name }
    {
        self.len = 0;
    }

    // Puts a row in at its place: the rows from there on move up.
    fn add_at(&mut self, place: usize, row: R)
        requires { Free R.rules self.old place }
        ensures kept { Keeps self.old self.new }
        ensures sound { Sound R.rules self.old → Places R.rules self.old (R.rules.key row) (Ok place) → Sound R.rules self.new }
        ensures inserted { Sound R.rules self.old → Places R.rules self.old (R.rules.key row) (Ok place) → Inserted R.rules self.old row place self.new }
        ensures lent { self.new.rows.ghost_name ≡ self.old.rows.ghost_name }
    {
        let len = self.len();
        open_at(self.rows, len, place, row);
        self.len = len + 1;
    }

    // Takes the row at a place out: the rows above it move down.
    fn take_at(&mut self, place: usize) -> R
        requires { place < length (live self.old) }
        ensures kept { Keeps self.old self.new }
        ensures sound { Sound R.rules self.old → Sound R.rules self.new }
        ensures removed { Sound R.rules self.old → (k : R.Key) → Seeks R.rules self.old k (Ok place) → Removed R.rules self.old k result self.new }
        ensures lent { self.new.rows.ghost_name ≡ self.old.rows.ghost_name }
    {
        let len = self.len();
        self.len = len - 1;
        close_at(self.rows, len, place)
    }

    // Puts a row over the one at a place, and answers that one.
    fn exchange_at(&mut self, place: usize, row: R) -> R
        requires { place < length (live self.old) }
        ensures kept { Keeps self.old self.new }
        ensures sound { Sound R.rules self.old → Seeks R.rules self.old (R.rules.key row) (Ok place) → Sound R.rules self.new }
        ensures replaced { Sound R.rules self.old → Seeks R.rules self.old (R.rules.key row) (Ok place) → Replaced R.rules self.old row result self.new }
        ensures lent { self.new.rows.ghost_name ≡ self.old.rows.ghost_name }
    {
        put_at(self.rows, place, row)
    }
}
