//! What a record brings to be kept in an ordered table.
ghost use Rattle.table.specs.Records.{RecordKind};
ghost use Rattle.std.specs.Prelude.{◌≡◌, not};

use std::cmp::Ordering;

/// A record with a key: a total order of keys, and a joining of records with one key.
pub trait Keyed: Copy {
    ghost kind: { RecordKind Self };

    /// How the key of `self` stands to that of `other`.
    fn compare(self, other: Self) -> Ordering
        ensures { result ≡ kind.order self other };

    /// What two records with one key make together.
    fn join(self, other: Self) -> Self
        ensures { result ≡ kind.joined self other };

    /// An empty record stands for nothing, and no table keeps one.
    fn is_not_empty(self) -> bool
        ensures { result ≡ not (kind.empty? self) };

    /// What an unused place holds.
    fn blank() -> Self
        ensures { result ≡ kind.blank };
}
