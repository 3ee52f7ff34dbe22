//! Rows of each call on networks and tables, and of texts, addresses and lengths that are no network.

use crate::calls::{Ask, NEW, Reply, Row};
use std::cmp::Ordering;

/// Rows of IPv4.
pub static FOUR: &[Row] = &[
    (Ask::Network("0.0.0.0", 33), Reply::BadLength),
    (Ask::Network("0.0.0.0", 255), Reply::BadLength),
    (Ask::Network("255.255.255.255", 31), Reply::HostBits),
    (Ask::Network("0.0.0.1", 0), Reply::HostBits),
    (Ask::Network("1.0.0.0", 7), Reply::HostBits),
    (Ask::Network("0.128.0.0", 8), Reply::HostBits),
    (Ask::Len, Reply::Count(0)),
    (Ask::Network("10.16.0.0", 12), Reply::Net("10.16.0.0/12")),
    (Ask::Len, Reply::Count(0)),
    (Ask::Insert("0.0.0.0/0", 1), Reply::Value(None)),
    (Ask::Insert("10.0.0.0/8", 2), Reply::Value(None)),
    (Ask::Insert("10.16.0.0/12", 3), Reply::Value(None)),
    (Ask::Insert("10.16.0.0/16", 4), Reply::Value(None)),
    (Ask::Insert("10.16.0.1/32", 5), Reply::Value(None)),
    (Ask::Len, Reply::Count(5)),
    (Ask::Write("10.16.0.0/12", 30), Reply::Value(Some(3))),
    (Ask::Write("10.16.0.0/13", 31), Reply::Value(None)),
    (Ask::Get("10.16.0.0/12"), Reply::Value(Some(30))),
    (Ask::Get("10.16.0.0/16"), Reply::Value(Some(4))),
    (Ask::Get("10.16.0.0/13"), Reply::Value(None)),
    (Ask::Len, Reply::Count(5)),
    (
        Ask::Covers("10.16.0.0/12"),
        Reply::Route(("10.16.0.0/12", 30)),
    ),
    (
        Ask::Covers("10.16.0.0/13"),
        Reply::Route(("10.16.0.0/12", 30)),
    ),
    (Ask::Covers("10.0.0.0/11"), Reply::Route(("10.0.0.0/8", 2))),
    (
        Ask::Covers("10.16.0.0/24"),
        Reply::Route(("10.16.0.0/16", 4)),
    ),
    (
        Ask::Covers("10.16.0.1/32"),
        Reply::Route(("10.16.0.1/32", 5)),
    ),
    (Ask::Covers("0.0.0.0/0"), Reply::Route(("0.0.0.0/0", 1))),
    (
        Ask::CoversAll("10.16.0.1/32"),
        Reply::Routes(&[
            ("0.0.0.0/0", 1),
            ("10.0.0.0/8", 2),
            ("10.16.0.0/12", 30),
            ("10.16.0.0/16", 4),
            ("10.16.0.1/32", 5),
        ]),
    ),
    (
        Ask::CoversAll("10.16.0.0/15"),
        Reply::Routes(&[("0.0.0.0/0", 1), ("10.0.0.0/8", 2), ("10.16.0.0/12", 30)]),
    ),
    (
        Ask::Supernet("10.16.0.1/32", 31),
        Reply::Net("10.16.0.0/31"),
    ),
    (Ask::Supernet("10.16.0.1/32", 9), Reply::Net("10.0.0.0/9")),
    (Ask::Supernet("10.16.0.1/32", 0), Reply::Net("0.0.0.0/0")),
    (
        Ask::Order("10.0.0.0/8", "10.0.0.0/9"),
        Reply::Order(Ordering::Less),
    ),
    (
        Ask::Order("10.128.0.0/9", "10.0.0.0/8"),
        Reply::Order(Ordering::Greater),
    ),
    (
        Ask::Order("10.0.0.0/8", "10.0.0.0/8"),
        Reply::Order(Ordering::Equal),
    ),
    (Ask::Parse("10.0.0/8"), Reply::BadAddress),
    (Ask::Parse("10.0.0.0/33"), Reply::BadLength),
    (Ask::Parse("10.0.0.1/8"), Reply::HostBits),
    (Ask::Clear, Reply::Count(0)),
    (Ask::Covers("10.16.0.1/32"), Reply::None),
    (Ask::Get("0.0.0.0/0"), Reply::Value(None)),
];

/// Rows of IPv6.
pub static SIX: &[Row] = &[
    (Ask::Network("::", 129), Reply::BadLength),
    (Ask::Network("::", 255), Reply::BadLength),
    (
        Ask::Network("ffff:ffff:ffff:ffff:ffff:ffff:ffff:ffff", 127),
        Reply::HostBits,
    ),
    (Ask::Network("::1", 0), Reply::HostBits),
    (Ask::Network("100::", 7), Reply::HostBits),
    (Ask::Network("80::", 8), Reply::HostBits),
    (Ask::Len, Reply::Count(0)),
    (
        Ask::Network("2001:db8:1000::", 36),
        Reply::Net("2001:db8:1000::/36"),
    ),
    (Ask::Len, Reply::Count(0)),
    (Ask::Insert("::/0", 1), Reply::Value(None)),
    (Ask::Insert("2001:db8::/32", 2), Reply::Value(None)),
    (Ask::Insert("2001:db8:1000::/36", 3), Reply::Value(None)),
    (Ask::Insert("2001:db8:1000::/48", 4), Reply::Value(None)),
    (Ask::Insert("2001:db8:1000::1/128", 5), Reply::Value(None)),
    (Ask::Len, Reply::Count(5)),
    (Ask::Write("2001:db8:1000::/36", 30), Reply::Value(Some(3))),
    (Ask::Write("2001:db8:1000::/37", 31), Reply::Value(None)),
    (Ask::Get("2001:db8:1000::/36"), Reply::Value(Some(30))),
    (Ask::Get("2001:db8:1000::/48"), Reply::Value(Some(4))),
    (Ask::Get("2001:db8:1000::/37"), Reply::Value(None)),
    (Ask::Len, Reply::Count(5)),
    (
        Ask::Covers("2001:db8:1000::/36"),
        Reply::Route(("2001:db8:1000::/36", 30)),
    ),
    (
        Ask::Covers("2001:db8:1000::/37"),
        Reply::Route(("2001:db8:1000::/36", 30)),
    ),
    (
        Ask::Covers("2001:db8::/35"),
        Reply::Route(("2001:db8::/32", 2)),
    ),
    (
        Ask::Covers("2001:db8:1000::/64"),
        Reply::Route(("2001:db8:1000::/48", 4)),
    ),
    (
        Ask::Covers("2001:db8:1000::1/128"),
        Reply::Route(("2001:db8:1000::1/128", 5)),
    ),
    (Ask::Covers("::/0"), Reply::Route(("::/0", 1))),
    (
        Ask::CoversAll("2001:db8:1000::1/128"),
        Reply::Routes(&[
            ("::/0", 1),
            ("2001:db8::/32", 2),
            ("2001:db8:1000::/36", 30),
            ("2001:db8:1000::/48", 4),
            ("2001:db8:1000::1/128", 5),
        ]),
    ),
    (
        Ask::CoversAll("2001:db8:1000::/40"),
        Reply::Routes(&[
            ("::/0", 1),
            ("2001:db8::/32", 2),
            ("2001:db8:1000::/36", 30),
        ]),
    ),
    (
        Ask::Supernet("2001:db8:1000::1/128", 127),
        Reply::Net("2001:db8:1000::/127"),
    ),
    (
        Ask::Supernet("2001:db8:1000::1/128", 33),
        Reply::Net("2001:db8::/33"),
    ),
    (Ask::Supernet("2001:db8:1000::1/128", 0), Reply::Net("::/0")),
    (
        Ask::Order("2001:db8::/32", "2001:db8::/33"),
        Reply::Order(Ordering::Less),
    ),
    (
        Ask::Order("2001:db8:8000::/33", "2001:db8::/32"),
        Reply::Order(Ordering::Greater),
    ),
    (
        Ask::Order("2001:db8::/32", "2001:db8::/32"),
        Reply::Order(Ordering::Equal),
    ),
    (Ask::Parse("2001:db8/32"), Reply::BadAddress),
    (Ask::Parse("2001:db8::/129"), Reply::BadLength),
    (Ask::Parse("2001:db8::1/32"), Reply::HostBits),
    (Ask::Clear, Reply::Count(0)),
    (Ask::Covers("2001:db8:1000::1/128"), Reply::None),
    (Ask::Get("::/0"), Reply::Value(None)),
];

/// Look-ups of a few routes, and a loan.
pub static LOOK_UPS_FOUR: &[Row] = &[
    (Ask::Insert("0.0.0.0/0", 0), NEW),
    (Ask::Insert("10.0.0.0/7", 1), NEW),
    (Ask::Insert("10.1.0.0/17", 2), NEW),
    (Ask::Route("10.1.2.3"), Reply::Route(("10.1.0.0/17", 2))),
    (Ask::Covers("10.1.0.0/16"), Reply::Route(("10.0.0.0/7", 1))),
    (Ask::Get("0.0.0.0/0"), Reply::Value(Some(0))),
    (Ask::Covering("10.1.2.3"), Reply::Count(3)),
    (Ask::CoversAll("10.1.0.0/16"), Reply::Count(2)),
    (Ask::Write("10.0.0.0/7", 7), Reply::Value(Some(1))),
    (Ask::Get("10.0.0.0/7"), Reply::Value(Some(7))),
    (Ask::Len, Reply::Count(3)),
    (Ask::Clear, Reply::Count(0)),
];

/// As [`LOOK_UPS_FOUR`].
pub static LOOK_UPS_SIX: &[Row] = &[
    (Ask::Insert("::/0", 0), NEW),
    (Ask::Insert("2000::/7", 1), NEW),
    (Ask::Insert("2001::/17", 2), NEW),
    (Ask::Route("2001::2"), Reply::Route(("2001::/17", 2))),
    (Ask::Covers("2001::/16"), Reply::Route(("2000::/7", 1))),
    (Ask::Get("::/0"), Reply::Value(Some(0))),
    (Ask::Covering("2001::2"), Reply::Count(3)),
    (Ask::CoversAll("2001::/16"), Reply::Count(2)),
    (Ask::Write("2000::/7", 7), Reply::Value(Some(1))),
    (Ask::Get("2000::/7"), Reply::Value(Some(7))),
    (Ask::Len, Reply::Count(3)),
    (Ask::Clear, Reply::Count(0)),
];
