// The rows of the book's two tables.
ghost use Rattle.std.specs.Prelude.{◌≡◌};
ghost use Rattle.tables.specs.BookRows.{connection_rules, group_rules};
ghost use Rattle.std.proofs.Common.{rules};

use crate::row::Row;
use fault::{Code, Fault, TableKind};
use rows::{ConnectionRow, Group, GroupRow};

// The most connections and the most groups of a book.
const MOST_CONNECTIONS: usize = 1_000_000;

const MOST_GROUPS: usize = 1_024;

// Connections, by their code.
impl Row for ConnectionRow {
    type Key = u64;

    ghost rules = { connection_rules };

    ghost ordered = { Prim.search rules };

    fn key(&self) -> u64 {
        self.code
    }

    fn before(a: &u64, b: &u64) -> bool {
        *a < *b
    }

    fn most() -> usize {
        MOST_CONNECTIONS
    }

    fn present(key: &u64) -> Fault {
        Fault::CodePresent(Code(*key))
    }

    fn absent(key: &u64) -> Fault {
        Fault::NotEnrolled(Code(*key))
    }

    fn full(_: &u64) -> Fault {
        Fault::NoPlace(TableKind::Connections)
    }
}

// Groups, by BRP, then supplier, then class.
impl Row for GroupRow {
    type Key = Group;

    ghost rules = { group_rules };

    ghost ordered = { Prim.search rules };

    fn key(&self) -> Group {
        self.group
    }

    fn before(a: &Group, b: &Group) -> bool {
        a < b
    }

    fn most() -> usize {
        MOST_GROUPS
    }

    // One that is needed and not there is another book's.
    fn absent(_: &Group) -> Fault {
        Fault::ForeignTables
    }

    // No entry puts a group in twice: one that is there already is another book's too.
    fn present(group: &Group) -> Fault {
        Self::absent(group)
    }

    fn full(_: &Group) -> Fault {
        Fault::NoPlace(TableKind::Groups)
    }
}
