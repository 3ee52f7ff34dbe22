//! Rows of the default route, of host routes, and of networks of the same whole octets.

use crate::calls::{Ask, NEW, Reply, Row};

/// The default route, host routes, and a network of whole octets of zeros.
pub static DEFAULT_AND_HOSTS_FOUR: &[Row] = &[
    (Ask::Route("0.0.0.0"), Reply::None),
    (Ask::Remove("0.0.0.0/0"), NEW),
    (Ask::Insert("0.0.0.0/0", 1), NEW),
    (Ask::Insert("0.0.0.0/0", 2), Reply::Value(Some(1))),
    (
        Ask::Route("255.255.255.255"),
        Reply::Route(("0.0.0.0/0", 2)),
    ),
    (Ask::Insert("255.255.255.255/32", 3), NEW),
    (Ask::Insert("0.0.0.0/32", 4), NEW),
    (Ask::Insert("0.0.0.0/8", 5), NEW),
    (Ask::Len, Reply::Count(4)),
    (
        Ask::Route("255.255.255.255"),
        Reply::Route(("255.255.255.255/32", 3)),
    ),
    (
        Ask::Route("255.255.255.254"),
        Reply::Route(("0.0.0.0/0", 2)),
    ),
    (Ask::Route("0.0.0.0"), Reply::Route(("0.0.0.0/32", 4))),
    (Ask::Covering("0.0.0.0"), Reply::Count(3)),
    (Ask::Route("0.0.0.1"), Reply::Route(("0.0.0.0/8", 5))),
    (Ask::Remove("0.0.0.0/0"), Reply::Value(Some(2))),
    (Ask::Route("255.255.255.254"), Reply::None),
    (Ask::Route("0.0.0.0"), Reply::Route(("0.0.0.0/32", 4))),
    (Ask::Get("0.0.0.0/8"), Reply::Value(Some(5))),
    (Ask::Get("0.0.0.0/7"), NEW),
    (Ask::Get("0.0.0.0/9"), NEW),
    (Ask::Get("0.0.0.0/16"), NEW),
];

/// As [`DEFAULT_AND_HOSTS_FOUR`].
pub static DEFAULT_AND_HOSTS_SIX: &[Row] = &[
    (Ask::Route("::"), Reply::None),
    (Ask::Remove("::/0"), NEW),
    (Ask::Insert("::/0", 1), NEW),
    (Ask::Insert("::/0", 2), Reply::Value(Some(1))),
    (
        Ask::Route("ffff:ffff:ffff:ffff:ffff:ffff:ffff:ffff"),
        Reply::Route(("::/0", 2)),
    ),
    (
        Ask::Insert("ffff:ffff:ffff:ffff:ffff:ffff:ffff:ffff/128", 3),
        NEW,
    ),
    (Ask::Insert("::/128", 4), NEW),
    (Ask::Insert("::/8", 5), NEW),
    (Ask::Len, Reply::Count(4)),
    (
        Ask::Route("ffff:ffff:ffff:ffff:ffff:ffff:ffff:ffff"),
        Reply::Route(("ffff:ffff:ffff:ffff:ffff:ffff:ffff:ffff/128", 3)),
    ),
    (
        Ask::Route("ffff:ffff:ffff:ffff:ffff:ffff:ffff:fffe"),
        Reply::Route(("::/0", 2)),
    ),
    (Ask::Route("::"), Reply::Route(("::/128", 4))),
    (Ask::Covering("::"), Reply::Count(3)),
    (Ask::Route("::1"), Reply::Route(("::/8", 5))),
    (Ask::Remove("::/0"), Reply::Value(Some(2))),
    (
        Ask::Route("ffff:ffff:ffff:ffff:ffff:ffff:ffff:fffe"),
        Reply::None,
    ),
    (Ask::Route("::"), Reply::Route(("::/128", 4))),
    (Ask::Get("::/8"), Reply::Value(Some(5))),
    (Ask::Get("::/7"), NEW),
    (Ask::Get("::/9"), NEW),
    (Ask::Get("::/16"), NEW),
];

/// Networks of the same whole octets: a removal keeps those beside it and those that cover it.
pub static ONE_STRIDE_FOUR: &[Row] = &[
    (Ask::Insert("10.16.0.0/12", 1), NEW),
    (Ask::Insert("10.24.0.0/13", 2), NEW),
    (Ask::Insert("10.16.0.0/13", 3), NEW),
    (Ask::Route("10.31.9.9"), Reply::Route(("10.24.0.0/13", 2))),
    (Ask::Route("10.23.9.9"), Reply::Route(("10.16.0.0/13", 3))),
    (Ask::Remove("10.16.0.0/13"), Reply::Value(Some(3))),
    (Ask::Route("10.23.9.9"), Reply::Route(("10.16.0.0/12", 1))),
    (Ask::Route("10.31.9.9"), Reply::Route(("10.24.0.0/13", 2))),
    (Ask::Remove("10.16.0.0/12"), Reply::Value(Some(1))),
    (Ask::Route("10.23.9.9"), Reply::None),
    (Ask::Route("10.31.9.9"), Reply::Route(("10.24.0.0/13", 2))),
    (Ask::Remove("10.24.0.0/13"), Reply::Value(Some(2))),
    (Ask::Remove("10.24.0.0/13"), NEW),
    (Ask::Len, Reply::Count(0)),
    (Ask::Insert("10.24.0.0/13", 4), NEW),
    (Ask::Route("10.31.9.9"), Reply::Route(("10.24.0.0/13", 4))),
];

/// As [`ONE_STRIDE_FOUR`].
pub static ONE_STRIDE_SIX: &[Row] = &[
    (Ask::Insert("a10::/12", 1), NEW),
    (Ask::Insert("a18::/13", 2), NEW),
    (Ask::Insert("a10::/13", 3), NEW),
    (
        Ask::Route("a1f:909:909:909:909:909:909:909"),
        Reply::Route(("a18::/13", 2)),
    ),
    (
        Ask::Route("a17:909:909:909:909:909:909:909"),
        Reply::Route(("a10::/13", 3)),
    ),
    (Ask::Remove("a10::/13"), Reply::Value(Some(3))),
    (
        Ask::Route("a17:909:909:909:909:909:909:909"),
        Reply::Route(("a10::/12", 1)),
    ),
    (
        Ask::Route("a1f:909:909:909:909:909:909:909"),
        Reply::Route(("a18::/13", 2)),
    ),
    (Ask::Remove("a10::/12"), Reply::Value(Some(1))),
    (Ask::Route("a17:909:909:909:909:909:909:909"), Reply::None),
    (
        Ask::Route("a1f:909:909:909:909:909:909:909"),
        Reply::Route(("a18::/13", 2)),
    ),
    (Ask::Remove("a18::/13"), Reply::Value(Some(2))),
    (Ask::Remove("a18::/13"), NEW),
    (Ask::Len, Reply::Count(0)),
    (Ask::Insert("a18::/13", 4), NEW),
    (
        Ask::Route("a1f:909:909:909:909:909:909:909"),
        Reply::Route(("a18::/13", 4)),
    ),
];
