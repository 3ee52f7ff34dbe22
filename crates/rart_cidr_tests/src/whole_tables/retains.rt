//! Rows of callbacks that keep some routes.

use crate::calls::{Ask, NEW, Reply, Row};

/// Rows of IPv4.
pub static FOUR: &[Row] = &[
    // of a network and its halves, one half stays
    (Ask::Insert("10.1.2.3/32", 6), NEW),
    (Ask::Insert("192.0.2.0/25", 7), NEW),
    (Ask::Insert("0.0.0.0/0", 1), NEW),
    (Ask::Insert("10.128.0.0/9", 4), NEW),
    (Ask::Insert("10.0.0.0/9", 3), NEW),
    (Ask::Insert("10.0.0.0/8", 2), NEW),
    (Ask::Insert("10.1.0.0/16", 5), NEW),
    (
        Ask::KeepOdd,
        Reply::Routes(&[
            ("0.0.0.0/0", 1),
            ("10.0.0.0/8", 2),
            ("10.0.0.0/9", 3),
            ("10.1.0.0/16", 5),
            ("10.1.2.3/32", 6),
            ("10.128.0.0/9", 4),
            ("192.0.2.0/25", 7),
        ]),
    ),
    (
        Ask::All,
        Reply::Routes(&[
            ("0.0.0.0/0", 257),
            ("10.0.0.0/9", 259),
            ("10.1.0.0/16", 261),
            ("192.0.2.0/25", 263),
        ]),
    ),
    (Ask::Len, Reply::Count(4)),
    (Ask::Route("10.1.2.3"), Reply::Route(("10.1.0.0/16", 261))),
    (
        Ask::KeepOddByRef,
        Reply::Routes(&[
            ("0.0.0.0/0", 257),
            ("10.0.0.0/9", 259),
            ("10.1.0.0/16", 261),
            ("192.0.2.0/25", 263),
        ]),
    ),
    (
        Ask::All,
        Reply::Routes(&[
            ("0.0.0.0/0", 257),
            ("10.0.0.0/9", 259),
            ("10.1.0.0/16", 261),
            ("192.0.2.0/25", 263),
        ]),
    ),
    (Ask::Insert("10.0.0.0/8", 2), NEW),
    (Ask::Insert("10.1.2.3/32", 6), NEW),
    (Ask::Insert("10.128.0.0/9", 4), NEW),
    (
        Ask::KeepOddByRef,
        Reply::Routes(&[
            ("0.0.0.0/0", 257),
            ("10.0.0.0/8", 2),
            ("10.0.0.0/9", 259),
            ("10.1.0.0/16", 261),
            ("10.1.2.3/32", 6),
            ("10.128.0.0/9", 4),
            ("192.0.2.0/25", 263),
        ]),
    ),
    (
        Ask::All,
        Reply::Routes(&[
            ("0.0.0.0/0", 257),
            ("10.0.0.0/9", 259),
            ("10.1.0.0/16", 261),
            ("192.0.2.0/25", 263),
        ]),
    ),
    // none stays
    (Ask::Write("0.0.0.0/0", 8), Reply::Value(Some(257))),
    (Ask::Write("10.0.0.0/9", 8), Reply::Value(Some(259))),
    (Ask::Write("10.1.0.0/16", 8), Reply::Value(Some(261))),
    (Ask::Write("192.0.2.0/25", 8), Reply::Value(Some(263))),
    (
        Ask::KeepOdd,
        Reply::Routes(&[
            ("0.0.0.0/0", 8),
            ("10.0.0.0/9", 8),
            ("10.1.0.0/16", 8),
            ("192.0.2.0/25", 8),
        ]),
    ),
    (Ask::Len, Reply::Count(0)),
    (Ask::Last, Reply::None),
    (Ask::First, Reply::None),
];

/// Rows of IPv6.
pub static SIX: &[Row] = &[
    // of a network and its halves, one half stays
    (Ask::Insert("2001:db8:1:2::3/128", 6), NEW),
    (Ask::Insert("fe80::/10", 7), NEW),
    (Ask::Insert("::/0", 1), NEW),
    (Ask::Insert("2001:db8:8000::/33", 4), NEW),
    (Ask::Insert("2001:db8::/33", 3), NEW),
    (Ask::Insert("2001:db8::/32", 2), NEW),
    (Ask::Insert("2001:db8:1::/48", 5), NEW),
    (
        Ask::KeepOdd,
        Reply::Routes(&[
            ("::/0", 1),
            ("2001:db8::/32", 2),
            ("2001:db8::/33", 3),
            ("2001:db8:1::/48", 5),
            ("2001:db8:1:2::3/128", 6),
            ("2001:db8:8000::/33", 4),
            ("fe80::/10", 7),
        ]),
    ),
    (
        Ask::All,
        Reply::Routes(&[
            ("::/0", 257),
            ("2001:db8::/33", 259),
            ("2001:db8:1::/48", 261),
            ("fe80::/10", 263),
        ]),
    ),
    (Ask::Len, Reply::Count(4)),
    (
        Ask::Route("2001:db8:1:2::3"),
        Reply::Route(("2001:db8:1::/48", 261)),
    ),
    (
        Ask::KeepOddByRef,
        Reply::Routes(&[
            ("::/0", 257),
            ("2001:db8::/33", 259),
            ("2001:db8:1::/48", 261),
            ("fe80::/10", 263),
        ]),
    ),
    (
        Ask::All,
        Reply::Routes(&[
            ("::/0", 257),
            ("2001:db8::/33", 259),
            ("2001:db8:1::/48", 261),
            ("fe80::/10", 263),
        ]),
    ),
    (Ask::Insert("2001:db8::/32", 2), NEW),
    (Ask::Insert("2001:db8:1:2::3/128", 6), NEW),
    (Ask::Insert("2001:db8:8000::/33", 4), NEW),
    (
        Ask::KeepOddByRef,
        Reply::Routes(&[
            ("::/0", 257),
            ("2001:db8::/32", 2),
            ("2001:db8::/33", 259),
            ("2001:db8:1::/48", 261),
            ("2001:db8:1:2::3/128", 6),
            ("2001:db8:8000::/33", 4),
            ("fe80::/10", 263),
        ]),
    ),
    (
        Ask::All,
        Reply::Routes(&[
            ("::/0", 257),
            ("2001:db8::/33", 259),
            ("2001:db8:1::/48", 261),
            ("fe80::/10", 263),
        ]),
    ),
    // none stays
    (Ask::Write("::/0", 8), Reply::Value(Some(257))),
    (Ask::Write("2001:db8::/33", 8), Reply::Value(Some(259))),
    (Ask::Write("2001:db8:1::/48", 8), Reply::Value(Some(261))),
    (Ask::Write("fe80::/10", 8), Reply::Value(Some(263))),
    (
        Ask::KeepOdd,
        Reply::Routes(&[
            ("::/0", 8),
            ("2001:db8::/33", 8),
            ("2001:db8:1::/48", 8),
            ("fe80::/10", 8),
        ]),
    ),
    (Ask::Len, Reply::Count(0)),
    (Ask::Last, Reply::None),
    (Ask::First, Reply::None),
];

/// Removals that allocate, of IPv4: the fifth stride left is removed.
pub static REFUSED_FOUR: &[Row] = &[
    (Ask::Insert("1.0.0.0/8", 2), NEW),
    (Ask::Insert("2.0.0.0/8", 1), NEW),
    (Ask::Insert("3.0.0.0/8", 4), NEW),
    (Ask::Insert("4.0.0.0/8", 6), NEW),
    (Ask::Insert("5.0.0.0/8", 3), NEW),
    (Ask::Insert("6.0.0.0/8", 8), NEW),
    (Ask::Insert("7.0.0.0/8", 10), NEW),
    (Ask::Insert("8.0.0.0/8", 12), NEW),
    (Ask::KeepOdd, Reply::Done),
    (
        Ask::All,
        Reply::Routes(&[("2.0.0.0/8", 257), ("5.0.0.0/8", 259)]),
    ),
    (Ask::Len, Reply::Count(2)),
    (Ask::Clear, Reply::Count(0)),
    (Ask::Insert("1.0.0.0/8", 2), NEW),
    (Ask::Insert("2.0.0.0/8", 1), NEW),
    (Ask::Insert("3.0.0.0/8", 4), NEW),
    (Ask::Insert("4.0.0.0/8", 6), NEW),
    (Ask::Insert("5.0.0.0/8", 3), NEW),
    (Ask::Insert("6.0.0.0/8", 8), NEW),
    (Ask::Insert("7.0.0.0/8", 10), NEW),
    (Ask::Insert("8.0.0.0/8", 12), NEW),
    (Ask::KeepOddByRef, Reply::Done),
    (
        Ask::All,
        Reply::Routes(&[("2.0.0.0/8", 257), ("5.0.0.0/8", 259)]),
    ),
    (Ask::Len, Reply::Count(2)),
];

/// Removals that allocate, of IPv6.
pub static REFUSED_SIX: &[Row] = &[
    (Ask::Insert("100::/8", 2), NEW),
    (Ask::Insert("200::/8", 1), NEW),
    (Ask::Insert("300::/8", 4), NEW),
    (Ask::Insert("400::/8", 6), NEW),
    (Ask::Insert("500::/8", 3), NEW),
    (Ask::Insert("600::/8", 8), NEW),
    (Ask::Insert("700::/8", 10), NEW),
    (Ask::Insert("800::/8", 12), NEW),
    (Ask::KeepOdd, Reply::Done),
    (
        Ask::All,
        Reply::Routes(&[("200::/8", 257), ("500::/8", 259)]),
    ),
    (Ask::Len, Reply::Count(2)),
    (Ask::Clear, Reply::Count(0)),
    (Ask::Insert("100::/8", 2), NEW),
    (Ask::Insert("200::/8", 1), NEW),
    (Ask::Insert("300::/8", 4), NEW),
    (Ask::Insert("400::/8", 6), NEW),
    (Ask::Insert("500::/8", 3), NEW),
    (Ask::Insert("600::/8", 8), NEW),
    (Ask::Insert("700::/8", 10), NEW),
    (Ask::Insert("800::/8", 12), NEW),
    (Ask::KeepOddByRef, Reply::Done),
    (
        Ask::All,
        Reply::Routes(&[("200::/8", 257), ("500::/8", 259)]),
    ),
    (Ask::Len, Reply::Count(2)),
];
