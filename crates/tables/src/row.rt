// What a row of a keyed table is.
ghost use Rattle.std.specs.Prelude.{◌≡◌};
ghost use Rattle.tables.specs.Rules.{Rules, TotalOrder};

use fault::Fault;

// A row has a key, and keys have a total order. A table keeps its rows in that order, each key once.
// An impl gives the rules as a definition in specs, a function for each of them, and the proof that its keys are
// `ordered`, which at numbers and derived orders of numbers is the search alone.
pub trait Row: Copy {
    type Key: Copy;

    ghost rules: { Rules Self Self.Key };

    fn key(&self) -> Self::Key
        ensures { result ≡ rules.key self.now };

    // Whether `a` comes before `b`: mostly `a < b`, but keys may be kept in another order than their own.
    fn before(a: &Self::Key, b: &Self::Key) -> bool
        ensures { result ≡ rules.less a.now b.now };

    // The most rows that a table may hold, however much memory it is lent.
    fn most() -> usize
        ensures { result ≡ rules.most };

    // The fault of a key that a row has already.
    fn present(key: &Self::Key) -> Fault
        ensures { result ≡ rules.present key.now };

    // The fault of a key that no row has.
    fn absent(key: &Self::Key) -> Fault
        ensures { result ≡ rules.absent key.now };

    // The fault of a key for whose row there is no place.
    fn full(key: &Self::Key) -> Fault
        ensures { result ≡ rules.full key.now };

    ghost ordered: { TotalOrder rules.less };
}
