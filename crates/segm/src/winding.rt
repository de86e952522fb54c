//! What a count of how often an edge is passed can do.
ghost use Rattle.segm.specs.Counts.{CountKind};
ghost use Rattle.std.specs.Prelude.{◌≡◌, not};

/// A count: an implementation shows that its kind is a commutative group.
pub trait WindingCount: Copy {
    ghost kind: { CountKind Self };

    /// The neutral count.
    fn empty() -> Self
        ensures { result ≡ kind.neutral };

    fn is_not_empty(self) -> bool
        ensures { result ≡ not (kind.empty? self) };

    fn add(self, count: Self) -> Self
        ensures { result ≡ kind.sum self count };

    /// The count of the same edge passed the other way.
    fn invert(self) -> Self
        ensures { result ≡ kind.inverse self };
}
