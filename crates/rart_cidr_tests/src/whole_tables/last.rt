//! Rows of the last route.

use crate::calls::{Ask, NEW, Reply, Row};

/// Rows of IPv4.
pub static FOUR: &[Row] = &[
    (Ask::Last, Reply::None),
    (Ask::Insert("10.1.2.3/32", 6), NEW),
    (Ask::Insert("10.128.0.0/9", 3), NEW),
    (Ask::Insert("192.0.2.0/25", 7), NEW),
    (Ask::Insert("0.0.0.0/0", 4), NEW),
    (Ask::Insert("10.0.0.0/8", 1), NEW),
    (Ask::Insert("10.0.0.0/9", 2), NEW),
    (Ask::Insert("10.1.2.0/24", 5), NEW),
    (Ask::Last, Reply::Route(("192.0.2.0/25", 7))),
    (Ask::Remove("192.0.2.0/25"), Reply::Value(Some(7))),
    (Ask::Last, Reply::Route(("10.128.0.0/9", 3))),
    (Ask::Remove("10.128.0.0/9"), Reply::Value(Some(3))),
    (Ask::Last, Reply::Route(("10.1.2.3/32", 6))),
    (Ask::Remove("10.1.2.3/32"), Reply::Value(Some(6))),
    (Ask::Last, Reply::Route(("10.1.2.0/24", 5))),
    (Ask::Remove("10.1.2.0/24"), Reply::Value(Some(5))),
    (Ask::Last, Reply::Route(("10.0.0.0/9", 2))),
    (Ask::Remove("10.0.0.0/9"), Reply::Value(Some(2))),
    (Ask::Last, Reply::Route(("10.0.0.0/8", 1))),
    (Ask::Remove("10.0.0.0/8"), Reply::Value(Some(1))),
    (Ask::Last, Reply::Route(("0.0.0.0/0", 4))),
    (Ask::Clear, Reply::Count(0)),
    (Ask::Last, Reply::None),
    // the last stride is not that of the last route
    (Ask::Insert("127.255.0.0/16", 1), NEW),
    (Ask::Insert("128.0.0.0/1", 2), NEW),
    (Ask::Last, Reply::Route(("128.0.0.0/1", 2))),
    (Ask::Insert("255.0.0.0/8", 3), NEW),
    (Ask::Last, Reply::Route(("255.0.0.0/8", 3))),
    (Ask::Insert("255.255.255.255/32", 4), NEW),
    (Ask::Last, Reply::Route(("255.255.255.255/32", 4))),
];

/// Rows of IPv6.
pub static SIX: &[Row] = &[
    (Ask::Last, Reply::None),
    (Ask::Insert("2001:db8:1:2::3/128", 6), NEW),
    (Ask::Insert("2001:db8:8000::/33", 3), NEW),
    (Ask::Insert("fe80::/10", 7), NEW),
    (Ask::Insert("::/0", 4), NEW),
    (Ask::Insert("2001:db8::/32", 1), NEW),
    (Ask::Insert("2001:db8::/33", 2), NEW),
    (Ask::Insert("2001:db8:1:2::/64", 5), NEW),
    (Ask::Last, Reply::Route(("fe80::/10", 7))),
    (Ask::Remove("fe80::/10"), Reply::Value(Some(7))),
    (Ask::Last, Reply::Route(("2001:db8:8000::/33", 3))),
    (Ask::Remove("2001:db8:8000::/33"), Reply::Value(Some(3))),
    (Ask::Last, Reply::Route(("2001:db8:1:2::3/128", 6))),
    (Ask::Remove("2001:db8:1:2::3/128"), Reply::Value(Some(6))),
    (Ask::Last, Reply::Route(("2001:db8:1:2::/64", 5))),
    (Ask::Remove("2001:db8:1:2::/64"), Reply::Value(Some(5))),
    (Ask::Last, Reply::Route(("2001:db8::/33", 2))),
    (Ask::Remove("2001:db8::/33"), Reply::Value(Some(2))),
    (Ask::Last, Reply::Route(("2001:db8::/32", 1))),
    (Ask::Remove("2001:db8::/32"), Reply::Value(Some(1))),
    (Ask::Last, Reply::Route(("::/0", 4))),
    (Ask::Clear, Reply::Count(0)),
    (Ask::Last, Reply::None),
    // the last stride is not that of the last route
    (Ask::Insert("7fff:ff00::/24", 1), NEW),
    (Ask::Insert("8000::/1", 2), NEW),
    (Ask::Last, Reply::Route(("8000::/1", 2))),
    (Ask::Insert("ff00::/8", 3), NEW),
    (Ask::Last, Reply::Route(("ff00::/8", 3))),
    (
        Ask::Insert("ffff:ffff:ffff:ffff:ffff:ffff:ffff:ffff/128", 4),
        NEW,
    ),
    (
        Ask::Last,
        Reply::Route(("ffff:ffff:ffff:ffff:ffff:ffff:ffff:ffff/128", 4)),
    ),
];
