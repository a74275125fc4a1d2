// A row over any content, a type of this program's own that holds a table of such rows, and a function that spends one: what a caller may do with a table, since its type has no ghost field.
ghost use Rattle.std.specs.Prelude.{◌≡◌, OnErr, length};
ghost use Rattle.tables_demo.specs.Rows.{noted_rules};
ghost use Rattle.tables_demo.specs.Spending.{Answers};
ghost use Rattle.tables.specs.Tables.{Inserts, Sound, Stays, memory};
ghost use Rattle.std.proofs.Common.{rules};

use fault::{Code, Fault, TableKind};
use tables::{Row, Table};

#[derive(Clone, Copy)]
pub struct Noted<T> {
    pub code: u64,
    pub note: T,
}

impl<T: Copy> Row for Noted<T> {
    type Key = u64;

    ghost rules = { noted_rules };

    ghost ordered = { Prim.search rules };

    fn key(&self) -> u64 {
        self.code
    }

    fn before(a: &u64, b: &u64) -> bool {
        *a < *b
    }

    fn most() -> usize {
        1_000
    }

    fn present(key: &u64) -> Fault {
        Fault::CodePresent(Code(*key))
    }

    fn absent(key: &u64) -> Fault {
        Fault::NotEnrolled(Code(*key))
    }

    fn full(_key: &u64) -> Fault {
        Fault::NoPlace(TableKind::Connections)
    }
}

#[derive(Drop)]
pub struct Notebook<'a, T: Copy> {
    pub table: Table<'a, Noted<T>>,
}

pub fn put<T: Copy>(book: &mut Notebook<'_, T>, row: Noted<T>) -> Result<usize, Fault>
    ensures refused { OnErr result (book.new ≡ book.old) }
    ensures stays { Stays noted_rules book.old.table book.new.table }
    ensures inserted { Sound noted_rules book.old.table → Inserts noted_rules book.old.table row result book.new.table }
{
    book.table.insert(row)
}

// Takes the table, puts the row in, and lets the table go. Of the memory, which is the lender's again, no more than its length can be said where a table that was taken is changed.
#[tactic(auto, using(crate::proofs::Spent::answers))]
pub fn spend<T: Copy>(mut spent: Table<'_, Noted<T>>, row: Noted<T>) -> Result<usize, Fault>
    ensures answer { Sound noted_rules spent.entry → Answers noted_rules spent.entry row result }
    ensures size { length spent.exit.0.now ≡ length (memory spent.entry) }
{
    spent.insert(row)
}
