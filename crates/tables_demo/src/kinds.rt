// Three kinds of row. Each gives its key, the order of its keys and its faults, and nothing of the table is proved again.
ghost use Rattle.tables_demo.specs.Rows.{group_rules, label_rules, meter_rules};
ghost use Rattle.std.proofs.Common.{rules};
ghost use Rattle.tables_demo.specs.Texts.{text_order};

use fault::{Code, Fault, Position, TableKind};
use tables::Row;

#[derive(Clone, Copy, PartialEq, Eq, Debug)]
pub struct Meter {
    pub code: u64,
    pub stand: u32,
}

impl Row for Meter {
    type Key = u64;

    ghost rules = { meter_rules };

    ghost ordered = { Prim.search rules };

    fn key(&self) -> u64 {
        self.code
    }

    fn before(a: &u64, b: &u64) -> bool {
        *a < *b
    }

    fn most() -> usize {
        3
    }

    fn present(key: &u64) -> Fault {
        Fault::CodePresent(Code(*key))
    }

    fn absent(key: &u64) -> Fault {
        Fault::NotEnrolled(Code(*key))
    }

    fn full(_key: &u64) -> Fault {
        Fault::NoPlace(TableKind::Connections)
    }
}

// Compared part by part: by responsible party, then by supplier, then by class. A key of this program's own, as any program can have one.
#[derive(Clone, Copy, PartialEq, Eq, PartialOrd, Ord, Debug)]
pub struct GroupKey {
    pub brp: u64,
    pub supplier: u64,
    pub class: u8,
}

#[derive(Clone, Copy, PartialEq, Eq, Debug)]
pub struct Group {
    pub key: GroupKey,
    pub volume: i64,
}

impl Row for Group {
    type Key = GroupKey;

    ghost rules = { group_rules };

    ghost ordered = { Prim.search rules };

    fn key(&self) -> GroupKey {
        self.key
    }

    fn before(a: &GroupKey, b: &GroupKey) -> bool {
        a < b
    }

    fn most() -> usize {
        100
    }

    fn present(_key: &GroupKey) -> Fault {
        Fault::OutOfRange(Position(1))
    }

    fn absent(_key: &GroupKey) -> Fault {
        Fault::ForeignTables
    }

    fn full(_key: &GroupKey) -> Fault {
        Fault::NoPlace(TableKind::Groups)
    }
}

#[derive(Clone, Copy, PartialEq, Eq, Debug)]
pub struct Label {
    pub text: [u8; 16],
    pub number: u32,
}

impl Row for Label {
    type Key = [u8; 16];

    ghost rules = { label_rules };

    ghost ordered = { text_order };

    fn key(&self) -> [u8; 16] {
        self.text
    }

    #[tactic(auto, using(crate::specs::Texts::text_compared))]
    fn before(a: &[u8; 16], b: &[u8; 16]) -> bool {
        // not `a < b`: tried, and its contract did not close against the order of texts
        a.cmp(b).is_lt()
    }

    fn most() -> usize {
        100
    }

    fn present(_key: &[u8; 16]) -> Fault {
        Fault::OutOfRange(Position(1))
    }

    fn absent(_key: &[u8; 16]) -> Fault {
        Fault::OutOfRange(Position(2))
    }

    fn full(_key: &[u8; 16]) -> Fault {
        Fault::NoPlace(TableKind::Groups)
    }
}
