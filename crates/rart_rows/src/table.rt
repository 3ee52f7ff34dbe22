//! The names of the calls.

use crate::names::{
    Both, Call, Callback, Count, Group, Insertion, Load, Look, Many, Pairs, Probe, Reach, Removal,
    Route, TableChange, TableEdit, TableRead, Tables, TriedRoutes, Turns, Values, Views, Whole,
};

/// A name, its call, and a letter for each argument.
pub type Entry = (&'static str, Call, &'static str);

// Where two names are one call, the second is the word of the program `rart_script`.
static NAMES: [Entry; 111] = [
    ("get", Call::Look(Look::Get), "k"),
    ("contains_key", Call::Look(Look::ContainsKey), "k"),
    (
        "longest_prefix_match",
        Call::Look(Look::LongestPrefixMatch),
        "k",
    ),
    ("longest", Call::Look(Look::LongestPrefixMatch), "k"),
    (
        "longest_prefix_value",
        Call::Look(Look::LongestPrefixValue),
        "k",
    ),
    ("count_prefix", Call::Look(Look::CountPrefix), "k"),
    (
        "longest_common_prefix",
        Call::Look(Look::LongestCommonPrefix),
        "k",
    ),
    ("first_at_or_after", Call::Look(Look::FirstAtOrAfter), "k"),
    ("first_after", Call::Look(Look::FirstAfter), "k"),
    ("last_at_or_before", Call::Look(Look::LastAtOrBefore), "k"),
    ("last_before", Call::Look(Look::LastBefore), "k"),
    ("count_range", Call::Count(Count::CountRange), "se"),
    (
        "count_range_bytes",
        Call::Count(Count::CountRangeBytes),
        "SE",
    ),
    ("get_bytes", Call::Probe(Probe::GetBytes), "b"),
    (
        "contains_key_bytes",
        Call::Probe(Probe::ContainsKeyBytes),
        "b",
    ),
    (
        "longest_prefix_match_bytes",
        Call::Probe(Probe::LongestPrefixMatchBytes),
        "b",
    ),
    (
        "longest_prefix_len_bytes",
        Call::Probe(Probe::LongestPrefixLenBytes),
        "b",
    ),
    (
        "longest_prefix_value_bytes",
        Call::Probe(Probe::LongestPrefixValueBytes),
        "b",
    ),
    (
        "first_at_or_after_bytes",
        Call::Probe(Probe::FirstAtOrAfterBytes),
        "b",
    ),
    (
        "first_after_bytes",
        Call::Probe(Probe::FirstAfterBytes),
        "b",
    ),
    (
        "last_at_or_before_bytes",
        Call::Probe(Probe::LastAtOrBeforeBytes),
        "b",
    ),
    (
        "last_before_bytes",
        Call::Probe(Probe::LastBeforeBytes),
        "b",
    ),
    ("canonical", Call::Whole(Whole::Canonical), ""),
    ("len", Call::Whole(Whole::Len), ""),
    ("is_empty", Call::Whole(Whole::IsEmpty), ""),
    ("get_tree_stats", Call::Whole(Whole::Stats), ""),
    ("stats", Call::Whole(Whole::Stats), ""),
    ("first_key_value", Call::Whole(Whole::FirstKeyValue), ""),
    ("last_key_value", Call::Whole(Whole::LastKeyValue), ""),
    ("outline", Call::Whole(Whole::Outline), ""),
    ("insert", Call::Insertion(Insertion::Insert), "kv"),
    ("try_insert", Call::Insertion(Insertion::TryInsert), "kv"),
    ("insert_new", Call::Insertion(Insertion::InsertNew), "kv"),
    ("get_mut", Call::Insertion(Insertion::GetMut), "kv"),
    (
        "get_or_insert",
        Call::Insertion(Insertion::GetOrInsert),
        "kv",
    ),
    (
        "get_or_insert_with",
        Call::Insertion(Insertion::GetOrInsertWith),
        "kv",
    ),
    ("update", Call::Insertion(Insertion::Update), "ku"),
    ("try_update", Call::Insertion(Insertion::TryUpdate), "ku"),
    ("remove", Call::Removal(Removal::Remove), "k"),
    ("delete", Call::Removal(Removal::Delete), "k"),
    ("pop_first", Call::Removal(Removal::PopFirst), ""),
    ("pop_last", Call::Removal(Removal::PopLast), ""),
    ("clear", Call::Removal(Removal::Clear), ""),
    (
        "for_each_value_mut",
        Call::Values(Values::ForEachValueMut),
        "v",
    ),
    (
        "prefix_for_each_value_mut",
        Call::Values(Values::PrefixForEachValueMut),
        "kv",
    ),
    (
        "range_for_each_value_mut",
        Call::Values(Values::RangeForEachValueMut),
        "sev",
    ),
    ("retain", Call::Many(Many::Retain), "rv"),
    ("prefix_retain", Call::Many(Many::PrefixRetain), "krv"),
    ("range_retain", Call::Many(Many::RangeRetain), "serv"),
    (
        "range_retain_bytes",
        Call::Many(Many::RangeRetainBytes),
        "SErv",
    ),
    ("remove_range", Call::Many(Many::RemoveRange), "se"),
    (
        "remove_range_bytes",
        Call::Many(Many::RemoveRangeBytes),
        "SE",
    ),
    ("take_range", Call::Many(Many::TakeRange), "se"),
    ("take_range_bytes", Call::Many(Many::TakeRangeBytes), "SE"),
    ("split_off", Call::Many(Many::SplitOff), "k"),
    ("remove_prefix", Call::Many(Many::RemovePrefix), "k"),
    ("take_prefix", Call::Many(Many::TakePrefix), "k"),
    ("into_pairs", Call::Many(Many::IntoPairs), ""),
    ("append", Call::Both(Both::Append), ""),
    ("clone", Call::Both(Both::Clone), ""),
    ("equal", Call::Both(Both::Equal), ""),
    ("swap", Call::Both(Both::Swap), ""),
    ("is_subset", Call::Both(Both::IsSubset), ""),
    ("is_disjoint", Call::Both(Both::IsDisjoint), ""),
    ("intersect_count", Call::Both(Both::IntersectCount), ""),
    (
        "intersect_values_with",
        Call::Both(Both::IntersectValuesWith),
        "",
    ),
    ("intersect_with", Call::Both(Both::IntersectWith), ""),
    (
        "try_intersect_with",
        Call::Both(Both::TryIntersectWith),
        "c",
    ),
    (
        "intersect_lending_with",
        Call::Both(Both::IntersectLendingWith),
        "",
    ),
    ("union_with", Call::Both(Both::UnionWith), ""),
    ("union_iter", Call::Both(Both::UnionIter), ""),
    ("difference_iter", Call::Both(Both::DifferenceIter), ""),
    ("merge_with", Call::Both(Both::MergeWith), ""),
    ("bulk_load_sorted", Call::Load(Load::BulkLoadSorted), "i"),
    ("from_pairs", Call::Load(Load::FromPairs), "i"),
    ("extend", Call::Load(Load::Extend), "i"),
    ("iter", Call::Pairs(Pairs::Iter), ""),
    ("values_iter", Call::Pairs(Pairs::ValuesIter), ""),
    ("prefix_iter", Call::Pairs(Pairs::PrefixIter), "k"),
    ("prefix", Call::Pairs(Pairs::PrefixIter), "k"),
    (
        "prefix_match_iter",
        Call::Pairs(Pairs::PrefixMatchIter),
        "k",
    ),
    ("range", Call::Pairs(Pairs::Range), "se"),
    ("range_bytes", Call::Pairs(Pairs::RangeBytes), "SE"),
    (
        "range_descending_bytes",
        Call::Pairs(Pairs::RangeDescendingBytes),
        "SE",
    ),
    ("iter_descending", Call::Pairs(Pairs::IterDescending), ""),
    (
        "prefix_iter_descending",
        Call::Pairs(Pairs::PrefixIterDescending),
        "k",
    ),
    (
        "range_descending",
        Call::Pairs(Pairs::RangeDescending),
        "se",
    ),
    ("iter_both_ends", Call::Turns(Turns::IterBothEnds), "t"),
    (
        "values_iter_both_ends",
        Call::Turns(Turns::ValuesIterBothEnds),
        "t",
    ),
    (
        "prefix_iter_both_ends",
        Call::Turns(Turns::PrefixIterBothEnds),
        "kt",
    ),
    ("range_both_ends", Call::Turns(Turns::RangeBothEnds), "set"),
    (
        "range_both_ends_bytes",
        Call::Turns(Turns::RangeBothEndsBytes),
        "SEt",
    ),
    (
        "prefix_match_for_each",
        Call::Callback(Callback::PrefixMatchForEach),
        "k",
    ),
    (
        "prefix_match_for_each_bytes",
        Call::Callback(Callback::PrefixMatchForEachBytes),
        "b",
    ),
    (
        "prefix_values_for_each",
        Call::Callback(Callback::PrefixValuesForEach),
        "k",
    ),
    (
        "prefix_values_fold",
        Call::Callback(Callback::PrefixValuesFold),
        "k",
    ),
    (
        "try_prefix_match_for_each",
        Call::Callback(Callback::TryPrefixMatchForEach),
        "kc",
    ),
    (
        "try_prefix_match_for_each_bytes",
        Call::Callback(Callback::TryPrefixMatchForEachBytes),
        "bc",
    ),
    (
        "try_prefix_values_for_each",
        Call::Callback(Callback::TryPrefixValuesForEach),
        "kc",
    ),
    ("for_each_view", Call::Views(Views::ForEachView), ""),
    (
        "prefix_for_each_view",
        Call::Views(Views::PrefixForEachView),
        "k",
    ),
    (
        "for_each_range_view",
        Call::Views(Views::ForEachRangeView),
        "se",
    ),
    (
        "with_longest_prefix_match_view",
        Call::Views(Views::WithLongestPrefixMatchView),
        "k",
    ),
    ("try_for_each_view", Call::Views(Views::TryForEachView), "c"),
    (
        "try_prefix_for_each_view",
        Call::Views(Views::TryPrefixForEachView),
        "kc",
    ),
    (
        "try_for_each_range_view",
        Call::Views(Views::TryForEachRangeView),
        "sec",
    ),
    (
        "for_each_range_view_bytes",
        Call::Views(Views::ForEachRangeViewBytes),
        "SE",
    ),
    (
        "try_for_each_range_view_bytes",
        Call::Views(Views::TryForEachRangeViewBytes),
        "SEc",
    ),
    ("fill", Call::Group(Group::Fill), "bvw"),
    ("empty_out", Call::Group(Group::EmptyOut), "bvw"),
    ("holds", Call::Group(Group::Holds), "bv"),
];

static ROUTE_NAMES: [Entry; 38] = [
    ("add", Call::Route(Route::Add), "kv"),
    ("add_new", Call::Route(Route::AddNew), "kv"),
    ("replace", Call::Route(Route::Replace), "kv"),
    ("withdraw", Call::Route(Route::Withdraw), "k"),
    ("get", Call::Route(Route::Get), "k"),
    ("contains_key", Call::Route(Route::ContainsKey), "k"),
    ("get_mut", Call::Route(Route::GetMut), "kv"),
    ("remove_prefix", Call::Route(Route::RemovePrefix), "k"),
    ("retain", Call::TableChange(TableChange::Retain), "rv"),
    (
        "for_each_value_mut",
        Call::TableChange(TableChange::ForEachValueMut),
        "v",
    ),
    ("as_tree", Call::TableRead(TableRead::AsTree), ""),
    (
        "route_with_prefix",
        Call::Route(Route::RouteWithPrefix),
        "k",
    ),
    (
        "covering_for_each",
        Call::Route(Route::CoveringForEach),
        "k",
    ),
    ("below_for_each", Call::Route(Route::BelowForEach), "k"),
    ("route", Call::Reach(Reach::Route), "b"),
    (
        "route_with_prefix_bytes",
        Call::Reach(Reach::RouteWithPrefixBytes),
        "b",
    ),
    (
        "covering_for_each_bytes",
        Call::Reach(Reach::CoveringForEachBytes),
        "b",
    ),
    (
        "try_covering_for_each",
        Call::TriedRoutes(TriedRoutes::CoveringForEach),
        "kc",
    ),
    (
        "try_covering_for_each_bytes",
        Call::TriedRoutes(TriedRoutes::CoveringForEachBytes),
        "bc",
    ),
    (
        "try_below_for_each",
        Call::TriedRoutes(TriedRoutes::BelowForEach),
        "kc",
    ),
    ("canonical", Call::TableRead(TableRead::Canonical), ""),
    ("len", Call::TableRead(TableRead::Len), ""),
    ("is_empty", Call::TableRead(TableRead::IsEmpty), ""),
    ("get_tree_stats", Call::TableRead(TableRead::Stats), ""),
    ("stats", Call::TableRead(TableRead::Stats), ""),
    (
        "first_key_value",
        Call::TableRead(TableRead::FirstKeyValue),
        "",
    ),
    (
        "last_key_value",
        Call::TableRead(TableRead::LastKeyValue),
        "",
    ),
    ("pop_first", Call::TableEdit(TableEdit::PopFirst), ""),
    ("pop_last", Call::TableEdit(TableEdit::PopLast), ""),
    ("clear", Call::TableEdit(TableEdit::Clear), ""),
    ("iter", Call::TableRead(TableRead::Iter), ""),
    (
        "iter_both_ends",
        Call::TableRead(TableRead::IterBothEnds),
        "t",
    ),
    ("append", Call::Tables(Tables::Append), ""),
    ("clone", Call::Tables(Tables::Clone), ""),
    ("equal", Call::Tables(Tables::Equal), ""),
    ("swap", Call::Tables(Tables::Swap), ""),
    ("from_pairs", Call::TableEdit(TableEdit::FromPairs), "i"),
    ("extend", Call::TableEdit(TableEdit::Extend), "i"),
];

/// The calls of a tree. Each body that names a large static takes its time.
pub fn names() -> &'static [Entry] {
    &NAMES
}

/// The calls of a route table.
pub fn route_names() -> &'static [Entry] {
    &ROUTE_NAMES
}
