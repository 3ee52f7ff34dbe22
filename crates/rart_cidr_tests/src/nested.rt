//! Rows of networks at the borders of the octets, each inside the one before.

use crate::calls::{Ask, NEW, Reply, Row};

/// Rows of IPv4.
pub static FOUR: &[Row] = &[
    (Ask::Insert("0.0.0.0/1", 1), NEW),
    (Ask::Insert("10.0.0.0/8", 8), NEW),
    (Ask::Insert("10.84.0.0/15", 15), NEW),
    (Ask::Insert("10.85.128.0/17", 17), NEW),
    (Ask::Insert("10.85.170.0/24", 24), NEW),
    (Ask::Insert("10.85.170.128/31", 31), NEW),
    (Ask::Insert("0.0.0.0/0", 0), NEW),
    (Ask::Insert("10.0.0.0/7", 7), NEW),
    (Ask::Insert("10.0.0.0/9", 9), NEW),
    (Ask::Insert("10.85.0.0/16", 16), NEW),
    (Ask::Insert("10.85.170.0/23", 23), NEW),
    (Ask::Insert("10.85.170.128/25", 25), NEW),
    (Ask::Insert("10.85.170.129/32", 32), NEW),
    (Ask::Len, Reply::Count(13)),
    (
        Ask::Route("10.85.170.129"),
        Reply::Route(("10.85.170.129/32", 32)),
    ),
    (Ask::Covering("10.85.170.129"), Reply::Count(13)),
    (Ask::Route("138.85.170.129"), Reply::Route(("0.0.0.0/0", 0))),
    (Ask::Covering("138.85.170.129"), Reply::Count(1)),
    (Ask::Route("74.85.170.129"), Reply::Route(("0.0.0.0/1", 1))),
    (Ask::Covering("74.85.170.129"), Reply::Count(2)),
    (Ask::Route("11.85.170.129"), Reply::Route(("10.0.0.0/7", 7))),
    (Ask::Covering("11.85.170.129"), Reply::Count(3)),
    (
        Ask::Route("10.213.170.129"),
        Reply::Route(("10.0.0.0/8", 8)),
    ),
    (Ask::Covering("10.213.170.129"), Reply::Count(4)),
    (Ask::Route("10.21.170.129"), Reply::Route(("10.0.0.0/9", 9))),
    (Ask::Covering("10.21.170.129"), Reply::Count(5)),
    (
        Ask::Route("10.84.170.129"),
        Reply::Route(("10.84.0.0/15", 15)),
    ),
    (Ask::Covering("10.84.170.129"), Reply::Count(6)),
    (
        Ask::Route("10.85.42.129"),
        Reply::Route(("10.85.0.0/16", 16)),
    ),
    (Ask::Covering("10.85.42.129"), Reply::Count(7)),
    (
        Ask::Route("10.85.234.129"),
        Reply::Route(("10.85.128.0/17", 17)),
    ),
    (Ask::Covering("10.85.234.129"), Reply::Count(8)),
    (
        Ask::Route("10.85.171.129"),
        Reply::Route(("10.85.170.0/23", 23)),
    ),
    (Ask::Covering("10.85.171.129"), Reply::Count(9)),
    (
        Ask::Route("10.85.170.1"),
        Reply::Route(("10.85.170.0/24", 24)),
    ),
    (Ask::Covering("10.85.170.1"), Reply::Count(10)),
    (
        Ask::Route("10.85.170.193"),
        Reply::Route(("10.85.170.128/25", 25)),
    ),
    (Ask::Covering("10.85.170.193"), Reply::Count(11)),
    (
        Ask::Route("10.85.170.128"),
        Reply::Route(("10.85.170.128/31", 31)),
    ),
    (Ask::Covering("10.85.170.128"), Reply::Count(12)),
    (Ask::Remove("10.85.170.129/32"), Reply::Value(Some(32))),
    (Ask::Get("10.85.170.129/32"), NEW),
    (
        Ask::Route("10.85.170.129"),
        Reply::Route(("10.85.170.128/31", 31)),
    ),
    (Ask::Remove("10.85.170.128/31"), Reply::Value(Some(31))),
    (Ask::Get("10.85.170.128/31"), NEW),
    (
        Ask::Route("10.85.170.129"),
        Reply::Route(("10.85.170.128/25", 25)),
    ),
    (Ask::Remove("10.85.170.128/25"), Reply::Value(Some(25))),
    (Ask::Get("10.85.170.128/25"), NEW),
    (
        Ask::Route("10.85.170.129"),
        Reply::Route(("10.85.170.0/24", 24)),
    ),
    (Ask::Remove("10.85.170.0/24"), Reply::Value(Some(24))),
    (Ask::Get("10.85.170.0/24"), NEW),
    (
        Ask::Route("10.85.170.129"),
        Reply::Route(("10.85.170.0/23", 23)),
    ),
    (Ask::Remove("10.85.170.0/23"), Reply::Value(Some(23))),
    (Ask::Get("10.85.170.0/23"), NEW),
    (
        Ask::Route("10.85.170.129"),
        Reply::Route(("10.85.128.0/17", 17)),
    ),
    (Ask::Remove("10.85.128.0/17"), Reply::Value(Some(17))),
    (Ask::Get("10.85.128.0/17"), NEW),
    (
        Ask::Route("10.85.170.129"),
        Reply::Route(("10.85.0.0/16", 16)),
    ),
    (Ask::Remove("10.85.0.0/16"), Reply::Value(Some(16))),
    (Ask::Get("10.85.0.0/16"), NEW),
    (
        Ask::Route("10.85.170.129"),
        Reply::Route(("10.84.0.0/15", 15)),
    ),
    (Ask::Remove("10.84.0.0/15"), Reply::Value(Some(15))),
    (Ask::Get("10.84.0.0/15"), NEW),
    (Ask::Route("10.85.170.129"), Reply::Route(("10.0.0.0/9", 9))),
    (Ask::Remove("10.0.0.0/9"), Reply::Value(Some(9))),
    (Ask::Get("10.0.0.0/9"), NEW),
    (Ask::Route("10.85.170.129"), Reply::Route(("10.0.0.0/8", 8))),
    (Ask::Remove("10.0.0.0/8"), Reply::Value(Some(8))),
    (Ask::Get("10.0.0.0/8"), NEW),
    (Ask::Route("10.85.170.129"), Reply::Route(("10.0.0.0/7", 7))),
    (Ask::Remove("10.0.0.0/7"), Reply::Value(Some(7))),
    (Ask::Get("10.0.0.0/7"), NEW),
    (Ask::Route("10.85.170.129"), Reply::Route(("0.0.0.0/1", 1))),
    (Ask::Remove("0.0.0.0/1"), Reply::Value(Some(1))),
    (Ask::Get("0.0.0.0/1"), NEW),
    (Ask::Route("10.85.170.129"), Reply::Route(("0.0.0.0/0", 0))),
    (Ask::Remove("0.0.0.0/0"), Reply::Value(Some(0))),
    (Ask::Get("0.0.0.0/0"), NEW),
    (Ask::Route("10.85.170.129"), Reply::None),
    (Ask::Len, Reply::Count(0)),
];

/// Rows of IPv6.
pub static SIX: &[Row] = &[
    (Ask::Insert("2000::/7", 7), NEW),
    (Ask::Insert("2000::/9", 9), NEW),
    (Ask::Insert("2001:db8::/32", 32), NEW),
    (Ask::Insert("2001:db8:55aa:33cc::/63", 63), NEW),
    (Ask::Insert("2001:db8:55aa:33cc::/65", 65), NEW),
    (
        Ask::Insert("2001:db8:55aa:33cc:ff0:817e:102:381/128", 128),
        NEW,
    ),
    (Ask::Insert("::/0", 0), NEW),
    (Ask::Insert("2000::/8", 8), NEW),
    (Ask::Insert("2001:db8::/31", 31), NEW),
    (Ask::Insert("2001:db8::/33", 33), NEW),
    (Ask::Insert("2001:db8:55aa:33cc::/64", 64), NEW),
    (
        Ask::Insert("2001:db8:55aa:33cc:ff0:817e:102:380/127", 127),
        NEW,
    ),
    (Ask::Len, Reply::Count(12)),
    (
        Ask::Route("2001:db8:55aa:33cc:ff0:817e:102:381"),
        Reply::Route(("2001:db8:55aa:33cc:ff0:817e:102:381/128", 128)),
    ),
    (
        Ask::Covering("2001:db8:55aa:33cc:ff0:817e:102:381"),
        Reply::Count(12),
    ),
    (
        Ask::Route("a001:db8:55aa:33cc:ff0:817e:102:381"),
        Reply::Route(("::/0", 0)),
    ),
    (
        Ask::Covering("a001:db8:55aa:33cc:ff0:817e:102:381"),
        Reply::Count(1),
    ),
    (
        Ask::Route("2101:db8:55aa:33cc:ff0:817e:102:381"),
        Reply::Route(("2000::/7", 7)),
    ),
    (
        Ask::Covering("2101:db8:55aa:33cc:ff0:817e:102:381"),
        Reply::Count(2),
    ),
    (
        Ask::Route("2081:db8:55aa:33cc:ff0:817e:102:381"),
        Reply::Route(("2000::/8", 8)),
    ),
    (
        Ask::Covering("2081:db8:55aa:33cc:ff0:817e:102:381"),
        Reply::Count(3),
    ),
    (
        Ask::Route("2041:db8:55aa:33cc:ff0:817e:102:381"),
        Reply::Route(("2000::/9", 9)),
    ),
    (
        Ask::Covering("2041:db8:55aa:33cc:ff0:817e:102:381"),
        Reply::Count(4),
    ),
    (
        Ask::Route("2001:db9:55aa:33cc:ff0:817e:102:381"),
        Reply::Route(("2001:db8::/31", 31)),
    ),
    (
        Ask::Covering("2001:db9:55aa:33cc:ff0:817e:102:381"),
        Reply::Count(5),
    ),
    (
        Ask::Route("2001:db8:d5aa:33cc:ff0:817e:102:381"),
        Reply::Route(("2001:db8::/32", 32)),
    ),
    (
        Ask::Covering("2001:db8:d5aa:33cc:ff0:817e:102:381"),
        Reply::Count(6),
    ),
    (
        Ask::Route("2001:db8:15aa:33cc:ff0:817e:102:381"),
        Reply::Route(("2001:db8::/33", 33)),
    ),
    (
        Ask::Covering("2001:db8:15aa:33cc:ff0:817e:102:381"),
        Reply::Count(7),
    ),
    (
        Ask::Route("2001:db8:55aa:33cd:ff0:817e:102:381"),
        Reply::Route(("2001:db8:55aa:33cc::/63", 63)),
    ),
    (
        Ask::Covering("2001:db8:55aa:33cd:ff0:817e:102:381"),
        Reply::Count(8),
    ),
    (
        Ask::Route("2001:db8:55aa:33cc:8ff0:817e:102:381"),
        Reply::Route(("2001:db8:55aa:33cc::/64", 64)),
    ),
    (
        Ask::Covering("2001:db8:55aa:33cc:8ff0:817e:102:381"),
        Reply::Count(9),
    ),
    (
        Ask::Route("2001:db8:55aa:33cc:4ff0:817e:102:381"),
        Reply::Route(("2001:db8:55aa:33cc::/65", 65)),
    ),
    (
        Ask::Covering("2001:db8:55aa:33cc:4ff0:817e:102:381"),
        Reply::Count(10),
    ),
    (
        Ask::Route("2001:db8:55aa:33cc:ff0:817e:102:380"),
        Reply::Route(("2001:db8:55aa:33cc:ff0:817e:102:380/127", 127)),
    ),
    (
        Ask::Covering("2001:db8:55aa:33cc:ff0:817e:102:380"),
        Reply::Count(11),
    ),
    (
        Ask::Remove("2001:db8:55aa:33cc:ff0:817e:102:381/128"),
        Reply::Value(Some(128)),
    ),
    (Ask::Get("2001:db8:55aa:33cc:ff0:817e:102:381/128"), NEW),
    (
        Ask::Route("2001:db8:55aa:33cc:ff0:817e:102:381"),
        Reply::Route(("2001:db8:55aa:33cc:ff0:817e:102:380/127", 127)),
    ),
    (
        Ask::Remove("2001:db8:55aa:33cc:ff0:817e:102:380/127"),
        Reply::Value(Some(127)),
    ),
    (Ask::Get("2001:db8:55aa:33cc:ff0:817e:102:380/127"), NEW),
    (
        Ask::Route("2001:db8:55aa:33cc:ff0:817e:102:381"),
        Reply::Route(("2001:db8:55aa:33cc::/65", 65)),
    ),
    (
        Ask::Remove("2001:db8:55aa:33cc::/65"),
        Reply::Value(Some(65)),
    ),
    (Ask::Get("2001:db8:55aa:33cc::/65"), NEW),
    (
        Ask::Route("2001:db8:55aa:33cc:ff0:817e:102:381"),
        Reply::Route(("2001:db8:55aa:33cc::/64", 64)),
    ),
    (
        Ask::Remove("2001:db8:55aa:33cc::/64"),
        Reply::Value(Some(64)),
    ),
    (Ask::Get("2001:db8:55aa:33cc::/64"), NEW),
    (
        Ask::Route("2001:db8:55aa:33cc:ff0:817e:102:381"),
        Reply::Route(("2001:db8:55aa:33cc::/63", 63)),
    ),
    (
        Ask::Remove("2001:db8:55aa:33cc::/63"),
        Reply::Value(Some(63)),
    ),
    (Ask::Get("2001:db8:55aa:33cc::/63"), NEW),
    (
        Ask::Route("2001:db8:55aa:33cc:ff0:817e:102:381"),
        Reply::Route(("2001:db8::/33", 33)),
    ),
    (Ask::Remove("2001:db8::/33"), Reply::Value(Some(33))),
    (Ask::Get("2001:db8::/33"), NEW),
    (
        Ask::Route("2001:db8:55aa:33cc:ff0:817e:102:381"),
        Reply::Route(("2001:db8::/32", 32)),
    ),
    (Ask::Remove("2001:db8::/32"), Reply::Value(Some(32))),
    (Ask::Get("2001:db8::/32"), NEW),
    (
        Ask::Route("2001:db8:55aa:33cc:ff0:817e:102:381"),
        Reply::Route(("2001:db8::/31", 31)),
    ),
    (Ask::Remove("2001:db8::/31"), Reply::Value(Some(31))),
    (Ask::Get("2001:db8::/31"), NEW),
    (
        Ask::Route("2001:db8:55aa:33cc:ff0:817e:102:381"),
        Reply::Route(("2000::/9", 9)),
    ),
    (Ask::Remove("2000::/9"), Reply::Value(Some(9))),
    (Ask::Get("2000::/9"), NEW),
    (
        Ask::Route("2001:db8:55aa:33cc:ff0:817e:102:381"),
        Reply::Route(("2000::/8", 8)),
    ),
    (Ask::Remove("2000::/8"), Reply::Value(Some(8))),
    (Ask::Get("2000::/8"), NEW),
    (
        Ask::Route("2001:db8:55aa:33cc:ff0:817e:102:381"),
        Reply::Route(("2000::/7", 7)),
    ),
    (Ask::Remove("2000::/7"), Reply::Value(Some(7))),
    (Ask::Get("2000::/7"), NEW),
    (
        Ask::Route("2001:db8:55aa:33cc:ff0:817e:102:381"),
        Reply::Route(("::/0", 0)),
    ),
    (Ask::Remove("::/0"), Reply::Value(Some(0))),
    (Ask::Get("::/0"), NEW),
    (
        Ask::Route("2001:db8:55aa:33cc:ff0:817e:102:381"),
        Reply::None,
    ),
    (Ask::Len, Reply::Count(0)),
];
