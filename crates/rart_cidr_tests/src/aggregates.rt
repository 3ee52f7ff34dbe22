//! Rows of aggregations: a route leaves if the next shorter network that contains its own has the same target.

// A chain of equal targets leaves up to its first route. Two halves of a network aren't joined.

use crate::calls::{Ask, NEW, Reply, Row};

/// Rows of IPv4.
pub static FOUR: &[Row] = &[
    (Ask::Aggregate, Reply::Count(0)),
    (Ask::Insert("11.0.0.0/8", 4), NEW),
    (Ask::Insert("192.0.2.128/25", 3), NEW),
    (Ask::Insert("192.0.2.0/24", 1), NEW),
    (Ask::Insert("10.1.2.4/32", 2), NEW),
    (Ask::Insert("10.1.2.3/32", 1), NEW),
    (Ask::Insert("10.1.2.0/24", 2), NEW),
    (Ask::Insert("10.1.0.0/16", 2), NEW),
    (Ask::Insert("10.0.0.0/8", 1), NEW),
    (Ask::Insert("0.0.0.0/0", 1), NEW),
    (Ask::Aggregate, Reply::Count(4)),
    (
        Ask::All,
        Reply::Routes(&[
            ("0.0.0.0/0", 1),
            ("10.1.0.0/16", 2),
            ("10.1.2.3/32", 1),
            ("11.0.0.0/8", 4),
            ("192.0.2.128/25", 3),
        ]),
    ),
    (Ask::Aggregate, Reply::Count(0)),
    (Ask::Covers("10.1.2.4/32"), Reply::Route(("10.1.0.0/16", 2))),
    (Ask::Covers("10.2.0.0/16"), Reply::Route(("0.0.0.0/0", 1))),
    (Ask::Covers("10.1.2.3/32"), Reply::Route(("10.1.2.3/32", 1))),
    (Ask::Clear, Reply::Count(0)),
    (Ask::Insert("10.0.0.0/9", 7), NEW),
    (Ask::Insert("10.128.0.0/9", 7), NEW),
    (Ask::Aggregate, Reply::Count(0)),
    (Ask::Len, Reply::Count(2)),
];

/// Rows of IPv6.
pub static SIX: &[Row] = &[
    (Ask::Aggregate, Reply::Count(0)),
    (Ask::Insert("3000::/16", 4), NEW),
    (Ask::Insert("fd00:1:8000::/33", 3), NEW),
    (Ask::Insert("fd00:1::/32", 1), NEW),
    (Ask::Insert("2001:db8:1::4/128", 2), NEW),
    (Ask::Insert("2001:db8:1::3/128", 1), NEW),
    (Ask::Insert("2001:db8:1::/48", 2), NEW),
    (Ask::Insert("2001:db8::/32", 2), NEW),
    (Ask::Insert("2001::/16", 1), NEW),
    (Ask::Insert("::/0", 1), NEW),
    (Ask::Aggregate, Reply::Count(4)),
    (
        Ask::All,
        Reply::Routes(&[
            ("::/0", 1),
            ("2001:db8::/32", 2),
            ("2001:db8:1::3/128", 1),
            ("3000::/16", 4),
            ("fd00:1:8000::/33", 3),
        ]),
    ),
    (Ask::Aggregate, Reply::Count(0)),
    (
        Ask::Covers("2001:db8:1::4/128"),
        Reply::Route(("2001:db8::/32", 2)),
    ),
    (Ask::Covers("2001:db9::/32"), Reply::Route(("::/0", 1))),
    (
        Ask::Covers("2001:db8:1::3/128"),
        Reply::Route(("2001:db8:1::3/128", 1)),
    ),
    (Ask::Clear, Reply::Count(0)),
    (Ask::Insert("2001:db8::/33", 7), NEW),
    (Ask::Insert("2001:db8:8000::/33", 7), NEW),
    (Ask::Aggregate, Reply::Count(0)),
    (Ask::Len, Reply::Count(2)),
];

/// Removals that allocate, of IPv4: the fifth stride left is removed.
pub static REFUSED_FOUR: &[Row] = &[
    (Ask::Insert("0.0.0.0/0", 1), NEW),
    (Ask::Insert("1.0.0.0/8", 1), NEW),
    (Ask::Insert("2.0.0.0/8", 1), NEW),
    (Ask::Insert("3.0.0.0/8", 1), NEW),
    (Ask::Insert("4.0.0.0/8", 1), NEW),
    (Ask::Insert("5.0.0.0/8", 1), NEW),
    (Ask::Insert("6.0.0.0/8", 1), NEW),
    (Ask::Aggregate, Reply::Done),
    (Ask::All, Reply::Routes(&[("0.0.0.0/0", 1)])),
    (Ask::Len, Reply::Count(1)),
];

/// Removals that allocate, of IPv6.
pub static REFUSED_SIX: &[Row] = &[
    (Ask::Insert("::/0", 1), NEW),
    (Ask::Insert("100::/8", 1), NEW),
    (Ask::Insert("200::/8", 1), NEW),
    (Ask::Insert("300::/8", 1), NEW),
    (Ask::Insert("400::/8", 1), NEW),
    (Ask::Insert("500::/8", 1), NEW),
    (Ask::Insert("600::/8", 1), NEW),
    (Ask::Aggregate, Reply::Done),
    (Ask::All, Reply::Routes(&[("::/0", 1)])),
    (Ask::Len, Reply::Count(1)),
];
