//! The calls, in groups of those that are made alike.

/// A call, in the group of those that are made alike.
#[derive(Clone, Copy)]
pub enum Call {
    Look(Look),
    Count(Count),
    Probe(Probe),
    Whole(Whole),
    Insertion(Insertion),
    Removal(Removal),
    Values(Values),
    Many(Many),
    Both(Both),
    Load(Load),
    Pairs(Pairs),
    Turns(Turns),
    Callback(Callback),
    Views(Views),
    Group(Group),
    Route(Route),
    Reach(Reach),
    TriedRoutes(TriedRoutes),
    TableRead(TableRead),
    TableEdit(TableEdit),
    TableChange(TableChange),
    Tables(Tables),
}

/// Look-ups of a key.
#[derive(Clone, Copy)]
pub enum Look {
    Get,
    ContainsKey,
    LongestPrefixMatch,
    LongestPrefixValue,
    CountPrefix,
    LongestCommonPrefix,
    FirstAtOrAfter,
    FirstAfter,
    LastAtOrBefore,
    LastBefore,
}

/// Counts of the pairs within two bounds.
#[derive(Clone, Copy)]
pub enum Count {
    CountRange,
    CountRangeBytes,
}

/// Look-ups of bytes that need not be a key.
#[derive(Clone, Copy)]
pub enum Probe {
    GetBytes,
    ContainsKeyBytes,
    LongestPrefixMatchBytes,
    LongestPrefixLenBytes,
    LongestPrefixValueBytes,
    FirstAtOrAfterBytes,
    FirstAfterBytes,
    LastAtOrBeforeBytes,
    LastBeforeBytes,
}

/// What is read of a whole tree.
#[derive(Clone, Copy)]
pub enum Whole {
    Canonical,
    Len,
    IsEmpty,
    Stats,
    FirstKeyValue,
    LastKeyValue,
    Outline,
}

/// Insertions and updates at a key.
#[derive(Clone, Copy)]
pub enum Insertion {
    Insert,
    TryInsert,
    InsertNew,
    GetMut,
    GetOrInsert,
    GetOrInsertWith,
    Update,
    TryUpdate,
}

/// Removals of one pair or of all.
#[derive(Clone, Copy)]
pub enum Removal {
    Remove,
    Delete,
    PopFirst,
    PopLast,
    Clear,
}

/// Edits of all values, of those below a prefix, or of those within two bounds.
#[derive(Clone, Copy)]
pub enum Values {
    ForEachValueMut,
    PrefixForEachValueMut,
    RangeForEachValueMut,
}

/// Edits of many pairs.
#[derive(Clone, Copy)]
pub enum Many {
    Retain,
    PrefixRetain,
    RangeRetain,
    RangeRetainBytes,
    RemoveRange,
    RemoveRangeBytes,
    TakeRange,
    TakeRangeBytes,
    SplitOff,
    RemovePrefix,
    TakePrefix,
    IntoPairs,
}

/// Calls on both trees.
#[derive(Clone, Copy)]
pub enum Both {
    Append,
    Clone,
    Equal,
    Swap,
    IsSubset,
    IsDisjoint,
    IntersectCount,
    IntersectValuesWith,
    IntersectWith,
    TryIntersectWith,
    IntersectLendingWith,
    UnionWith,
    UnionIter,
    DifferenceIter,
    MergeWith,
}

/// Loads of pairs that the row lists.
#[derive(Clone, Copy)]
pub enum Load {
    BulkLoadSorted,
    FromPairs,
    Extend,
}

/// Iterators over pairs or values.
#[derive(Clone, Copy)]
pub enum Pairs {
    Iter,
    ValuesIter,
    PrefixIter,
    PrefixMatchIter,
    Range,
    IterDescending,
    PrefixIterDescending,
    RangeDescending,
    RangeBytes,
    RangeDescendingBytes,
}

/// Iterators from both ends.
#[derive(Clone, Copy)]
pub enum Turns {
    IterBothEnds,
    ValuesIterBothEnds,
    PrefixIterBothEnds,
    RangeBothEnds,
    RangeBothEndsBytes,
}

/// Walks with a callback.
#[derive(Clone, Copy)]
pub enum Callback {
    PrefixMatchForEach,
    PrefixMatchForEachBytes,
    TryPrefixMatchForEach,
    TryPrefixMatchForEachBytes,
    PrefixValuesForEach,
    PrefixValuesFold,
    TryPrefixValuesForEach,
}

/// Walks whose callback gets keys in segments.
#[derive(Clone, Copy)]
pub enum Views {
    ForEachView,
    PrefixForEachView,
    ForEachRangeView,
    WithLongestPrefixMatchView,
    TryForEachView,
    TryPrefixForEachView,
    TryForEachRangeView,
    ForEachRangeViewBytes,
    TryForEachRangeViewBytes,
}

/// Runs of calls on keys that differ in their last byte.
#[derive(Clone, Copy)]
pub enum Group {
    Fill,
    EmptyOut,
    Holds,
}

/// Calls of a route table at a prefix.
#[derive(Clone, Copy)]
pub enum Route {
    Add,
    AddNew,
    Replace,
    Withdraw,
    Get,
    ContainsKey,
    GetMut,
    RemovePrefix,
    RouteWithPrefix,
    CoveringForEach,
    BelowForEach,
}

/// Walks over routes that a callback can end.
#[derive(Clone, Copy)]
pub enum TriedRoutes {
    CoveringForEach,
    CoveringForEachBytes,
    BelowForEach,
}

/// Calls of a route table at bytes that need not be a prefix.
#[derive(Clone, Copy)]
pub enum Reach {
    Route,
    RouteWithPrefixBytes,
    CoveringForEachBytes,
}

/// What is read of a whole route table.
#[derive(Clone, Copy)]
pub enum TableRead {
    Canonical,
    Len,
    IsEmpty,
    Stats,
    FirstKeyValue,
    LastKeyValue,
    Iter,
    IterBothEnds,
    AsTree,
}

/// Edits of a whole route table.
#[derive(Clone, Copy)]
pub enum TableEdit {
    PopFirst,
    PopLast,
    Clear,
    FromPairs,
    Extend,
}

/// Edits of a whole route table by a callback.
#[derive(Clone, Copy)]
pub enum TableChange {
    Retain,
    ForEachValueMut,
}

/// Calls on both route tables.
#[derive(Clone, Copy)]
pub enum Tables {
    Append,
    Clone,
    Equal,
    Swap,
}
