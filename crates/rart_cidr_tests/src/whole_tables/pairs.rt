//! Rows of the networks that two tables share, and of those that either has.

use crate::calls::{Ask, NEW, Reply, Row};

/// Rows of IPv4.
pub static FOUR: &[Row] = &[
    // empty tables, and one route
    (Ask::Intersect, Reply::Pairs(&[])),
    (Ask::Union, Reply::Pairs(&[])),
    (Ask::Insert("10.0.0.0/8", 1), NEW),
    (Ask::Intersect, Reply::Pairs(&[])),
    (Ask::Union, Reply::Pairs(&[("10.0.0.0/8", Some(1), None)])),
    (Ask::Other(&[("10.0.0.0/8", 5)]), Reply::Done),
    (
        Ask::Intersect,
        Reply::Pairs(&[("10.0.0.0/8", Some(1), Some(5))]),
    ),
    (
        Ask::Union,
        Reply::Pairs(&[("10.0.0.0/8", Some(1), Some(5))]),
    ),
    // a network inside the other one, around it, and beside it
    (Ask::Other(&[("10.0.0.0/9", 5)]), Reply::Done),
    (Ask::Intersect, Reply::Pairs(&[])),
    (
        Ask::Union,
        Reply::Pairs(&[("10.0.0.0/8", Some(1), None), ("10.0.0.0/9", None, Some(5))]),
    ),
    (Ask::Other(&[("0.0.0.0/0", 5)]), Reply::Done),
    (Ask::Intersect, Reply::Pairs(&[])),
    (
        Ask::Union,
        Reply::Pairs(&[("0.0.0.0/0", None, Some(5)), ("10.0.0.0/8", Some(1), None)]),
    ),
    (Ask::Other(&[("11.0.0.0/8", 5)]), Reply::Done),
    (Ask::Intersect, Reply::Pairs(&[])),
    (
        Ask::Union,
        Reply::Pairs(&[("10.0.0.0/8", Some(1), None), ("11.0.0.0/8", None, Some(5))]),
    ),
    // a network and its halves, without those of the other table
    (
        Ask::Other(&[("10.128.0.0/9", 6), ("10.0.0.0/9", 5)]),
        Reply::Done,
    ),
    (Ask::Intersect, Reply::Pairs(&[])),
    (
        Ask::Union,
        Reply::Pairs(&[
            ("10.0.0.0/8", Some(1), None),
            ("10.0.0.0/9", None, Some(5)),
            ("10.128.0.0/9", None, Some(6)),
        ]),
    ),
    // routes of several strides
    (Ask::Insert("192.0.2.0/25", 7), NEW),
    (Ask::Insert("10.1.2.3/32", 6), NEW),
    (Ask::Insert("10.128.0.0/9", 3), NEW),
    (Ask::Insert("10.1.0.0/16", 4), NEW),
    (Ask::Insert("10.0.0.0/9", 2), NEW),
    (
        Ask::Other(&[
            ("192.0.2.0/25", 17),
            ("10.1.2.3/32", 16),
            ("10.1.2.0/24", 15),
            ("10.0.0.0/8", 11),
            ("128.0.0.0/1", 18),
            ("10.128.0.0/10", 13),
            ("0.0.0.0/0", 10),
        ]),
        Reply::Done,
    ),
    (
        Ask::Intersect,
        Reply::Pairs(&[
            ("10.0.0.0/8", Some(1), Some(11)),
            ("10.1.2.3/32", Some(6), Some(16)),
            ("192.0.2.0/25", Some(7), Some(17)),
        ]),
    ),
    (
        Ask::Union,
        Reply::Pairs(&[
            ("0.0.0.0/0", None, Some(10)),
            ("10.0.0.0/8", Some(1), Some(11)),
            ("10.0.0.0/9", Some(2), None),
            ("10.1.0.0/16", Some(4), None),
            ("10.1.2.0/24", None, Some(15)),
            ("10.1.2.3/32", Some(6), Some(16)),
            ("10.128.0.0/9", Some(3), None),
            ("10.128.0.0/10", None, Some(13)),
            ("128.0.0.0/1", None, Some(18)),
            ("192.0.2.0/25", Some(7), Some(17)),
        ]),
    ),
    (Ask::Insert("0.0.0.0/0", 0), NEW),
    (
        Ask::Intersect,
        Reply::Pairs(&[
            ("0.0.0.0/0", Some(0), Some(10)),
            ("10.0.0.0/8", Some(1), Some(11)),
            ("10.1.2.3/32", Some(6), Some(16)),
            ("192.0.2.0/25", Some(7), Some(17)),
        ]),
    ),
    // an empty table with a full one, a table with its clone, and a full one with an empty one
    (Ask::Clear, Reply::Count(0)),
    (Ask::Intersect, Reply::Pairs(&[])),
    (
        Ask::Union,
        Reply::Pairs(&[
            ("0.0.0.0/0", None, Some(10)),
            ("10.0.0.0/8", None, Some(11)),
            ("10.1.2.0/24", None, Some(15)),
            ("10.1.2.3/32", None, Some(16)),
            ("10.128.0.0/10", None, Some(13)),
            ("128.0.0.0/1", None, Some(18)),
            ("192.0.2.0/25", None, Some(17)),
        ]),
    ),
    (Ask::CloneFromOther, Reply::Done),
    (
        Ask::Intersect,
        Reply::Pairs(&[
            ("0.0.0.0/0", Some(10), Some(10)),
            ("10.0.0.0/8", Some(11), Some(11)),
            ("10.1.2.0/24", Some(15), Some(15)),
            ("10.1.2.3/32", Some(16), Some(16)),
            ("10.128.0.0/10", Some(13), Some(13)),
            ("128.0.0.0/1", Some(18), Some(18)),
            ("192.0.2.0/25", Some(17), Some(17)),
        ]),
    ),
    (
        Ask::Union,
        Reply::Pairs(&[
            ("0.0.0.0/0", Some(10), Some(10)),
            ("10.0.0.0/8", Some(11), Some(11)),
            ("10.1.2.0/24", Some(15), Some(15)),
            ("10.1.2.3/32", Some(16), Some(16)),
            ("10.128.0.0/10", Some(13), Some(13)),
            ("128.0.0.0/1", Some(18), Some(18)),
            ("192.0.2.0/25", Some(17), Some(17)),
        ]),
    ),
    (Ask::Other(&[]), Reply::Done),
    (Ask::Intersect, Reply::Pairs(&[])),
    (
        Ask::Union,
        Reply::Pairs(&[
            ("0.0.0.0/0", Some(10), None),
            ("10.0.0.0/8", Some(11), None),
            ("10.1.2.0/24", Some(15), None),
            ("10.1.2.3/32", Some(16), None),
            ("10.128.0.0/10", Some(13), None),
            ("128.0.0.0/1", Some(18), None),
            ("192.0.2.0/25", Some(17), None),
        ]),
    ),
];

/// Rows of IPv6.
pub static SIX: &[Row] = &[
    // empty tables, and one route
    (Ask::Intersect, Reply::Pairs(&[])),
    (Ask::Union, Reply::Pairs(&[])),
    (Ask::Insert("2001:db8::/32", 1), NEW),
    (Ask::Intersect, Reply::Pairs(&[])),
    (
        Ask::Union,
        Reply::Pairs(&[("2001:db8::/32", Some(1), None)]),
    ),
    (Ask::Other(&[("2001:db8::/32", 5)]), Reply::Done),
    (
        Ask::Intersect,
        Reply::Pairs(&[("2001:db8::/32", Some(1), Some(5))]),
    ),
    (
        Ask::Union,
        Reply::Pairs(&[("2001:db8::/32", Some(1), Some(5))]),
    ),
    // a network inside the other one, around it, and beside it
    (Ask::Other(&[("2001:db8::/33", 5)]), Reply::Done),
    (Ask::Intersect, Reply::Pairs(&[])),
    (
        Ask::Union,
        Reply::Pairs(&[
            ("2001:db8::/32", Some(1), None),
            ("2001:db8::/33", None, Some(5)),
        ]),
    ),
    (Ask::Other(&[("::/0", 5)]), Reply::Done),
    (Ask::Intersect, Reply::Pairs(&[])),
    (
        Ask::Union,
        Reply::Pairs(&[("::/0", None, Some(5)), ("2001:db8::/32", Some(1), None)]),
    ),
    (Ask::Other(&[("2001:db9::/32", 5)]), Reply::Done),
    (Ask::Intersect, Reply::Pairs(&[])),
    (
        Ask::Union,
        Reply::Pairs(&[
            ("2001:db8::/32", Some(1), None),
            ("2001:db9::/32", None, Some(5)),
        ]),
    ),
    // a network and its halves, without those of the other table
    (
        Ask::Other(&[("2001:db8:8000::/33", 6), ("2001:db8::/33", 5)]),
        Reply::Done,
    ),
    (Ask::Intersect, Reply::Pairs(&[])),
    (
        Ask::Union,
        Reply::Pairs(&[
            ("2001:db8::/32", Some(1), None),
            ("2001:db8::/33", None, Some(5)),
            ("2001:db8:8000::/33", None, Some(6)),
        ]),
    ),
    // routes of several strides
    (Ask::Insert("fe80::/10", 7), NEW),
    (Ask::Insert("2001:db8:1:2::3/128", 6), NEW),
    (Ask::Insert("2001:db8:8000::/33", 3), NEW),
    (Ask::Insert("2001:db8:1::/48", 4), NEW),
    (Ask::Insert("2001:db8::/33", 2), NEW),
    (
        Ask::Other(&[
            ("fe80::/10", 17),
            ("2001:db8:1:2::3/128", 16),
            ("2001:db8:1:2::/64", 15),
            ("2001:db8::/32", 11),
            ("8000::/1", 18),
            ("2001:db8:8000::/34", 13),
            ("::/0", 10),
        ]),
        Reply::Done,
    ),
    (
        Ask::Intersect,
        Reply::Pairs(&[
            ("2001:db8::/32", Some(1), Some(11)),
            ("2001:db8:1:2::3/128", Some(6), Some(16)),
            ("fe80::/10", Some(7), Some(17)),
        ]),
    ),
    (
        Ask::Union,
        Reply::Pairs(&[
            ("::/0", None, Some(10)),
            ("2001:db8::/32", Some(1), Some(11)),
            ("2001:db8::/33", Some(2), None),
            ("2001:db8:1::/48", Some(4), None),
            ("2001:db8:1:2::/64", None, Some(15)),
            ("2001:db8:1:2::3/128", Some(6), Some(16)),
            ("2001:db8:8000::/33", Some(3), None),
            ("2001:db8:8000::/34", None, Some(13)),
            ("8000::/1", None, Some(18)),
            ("fe80::/10", Some(7), Some(17)),
        ]),
    ),
    (Ask::Insert("::/0", 0), NEW),
    (
        Ask::Intersect,
        Reply::Pairs(&[
            ("::/0", Some(0), Some(10)),
            ("2001:db8::/32", Some(1), Some(11)),
            ("2001:db8:1:2::3/128", Some(6), Some(16)),
            ("fe80::/10", Some(7), Some(17)),
        ]),
    ),
    // an empty table with a full one, a table with its clone, and a full one with an empty one
    (Ask::Clear, Reply::Count(0)),
    (Ask::Intersect, Reply::Pairs(&[])),
    (
        Ask::Union,
        Reply::Pairs(&[
            ("::/0", None, Some(10)),
            ("2001:db8::/32", None, Some(11)),
            ("2001:db8:1:2::/64", None, Some(15)),
            ("2001:db8:1:2::3/128", None, Some(16)),
            ("2001:db8:8000::/34", None, Some(13)),
            ("8000::/1", None, Some(18)),
            ("fe80::/10", None, Some(17)),
        ]),
    ),
    (Ask::CloneFromOther, Reply::Done),
    (
        Ask::Intersect,
        Reply::Pairs(&[
            ("::/0", Some(10), Some(10)),
            ("2001:db8::/32", Some(11), Some(11)),
            ("2001:db8:1:2::/64", Some(15), Some(15)),
            ("2001:db8:1:2::3/128", Some(16), Some(16)),
            ("2001:db8:8000::/34", Some(13), Some(13)),
            ("8000::/1", Some(18), Some(18)),
            ("fe80::/10", Some(17), Some(17)),
        ]),
    ),
    (
        Ask::Union,
        Reply::Pairs(&[
            ("::/0", Some(10), Some(10)),
            ("2001:db8::/32", Some(11), Some(11)),
            ("2001:db8:1:2::/64", Some(15), Some(15)),
            ("2001:db8:1:2::3/128", Some(16), Some(16)),
            ("2001:db8:8000::/34", Some(13), Some(13)),
            ("8000::/1", Some(18), Some(18)),
            ("fe80::/10", Some(17), Some(17)),
        ]),
    ),
    (Ask::Other(&[]), Reply::Done),
    (Ask::Intersect, Reply::Pairs(&[])),
    (
        Ask::Union,
        Reply::Pairs(&[
            ("::/0", Some(10), None),
            ("2001:db8::/32", Some(11), None),
            ("2001:db8:1:2::/64", Some(15), None),
            ("2001:db8:1:2::3/128", Some(16), None),
            ("2001:db8:8000::/34", Some(13), None),
            ("8000::/1", Some(18), None),
            ("fe80::/10", Some(17), None),
        ]),
    ),
];
