//! Rows of how many nodes and strides a longest match reads.

// Each network but the first and the last misses what is sought, in a stride that its octets begin with. After a stride
// without a match, the map of strides is descended anew.

use crate::calls::{Ask, NEW, Reply, Row};

/// Rows of IPv4.
pub static FOUR: &[Row] = &[
    (Ask::Reads("10.1.2.3/32"), Reply::Reads(0, 1, None)),
    (Ask::Insert("0.0.0.0/0", 1), NEW),
    (
        Ask::Reads("10.1.2.3/32"),
        Reply::Reads(1, 1, Some("0.0.0.0/0")),
    ),
    (Ask::Insert("10.128.0.0/9", 1), NEW),
    (
        Ask::Reads("10.1.2.3/32"),
        Reply::Reads(3, 2, Some("0.0.0.0/0")),
    ),
    (Ask::Insert("10.1.128.0/17", 1), NEW),
    (
        Ask::Reads("10.1.2.3/32"),
        Reply::Reads(6, 3, Some("0.0.0.0/0")),
    ),
    (Ask::Insert("10.1.2.128/25", 1), NEW),
    (
        Ask::Reads("10.1.2.3/32"),
        Reply::Reads(10, 4, Some("0.0.0.0/0")),
    ),
    (Ask::Insert("10.1.2.3/32", 1), NEW),
    (
        Ask::Reads("10.1.2.3/32"),
        Reply::Reads(5, 1, Some("10.1.2.3/32")),
    ),
    (
        Ask::Reads("10.1.2.0/24"),
        Reply::Reads(10, 4, Some("0.0.0.0/0")),
    ),
    (
        Ask::Reads("10.1.2.128/26"),
        Reply::Reads(4, 1, Some("10.1.2.128/25")),
    ),
    (
        Ask::Reads("10.1.200.0/24"),
        Reply::Reads(3, 1, Some("10.1.128.0/17")),
    ),
    (
        Ask::Reads("10.1.2.0/23"),
        Reply::Reads(6, 3, Some("0.0.0.0/0")),
    ),
    (
        Ask::Reads("11.0.0.0/8"),
        Reply::Reads(1, 1, Some("0.0.0.0/0")),
    ),
];

/// Rows of IPv6.
pub static SIX: &[Row] = &[
    (Ask::Reads("2001:db8::1/128"), Reply::Reads(0, 1, None)),
    (Ask::Insert("::/0", 1), NEW),
    (
        Ask::Reads("2001:db8::1/128"),
        Reply::Reads(1, 1, Some("::/0")),
    ),
    (Ask::Insert("2080::/9", 1), NEW),
    (
        Ask::Reads("2001:db8::1/128"),
        Reply::Reads(3, 2, Some("::/0")),
    ),
    (Ask::Insert("2001:8000::/17", 1), NEW),
    (
        Ask::Reads("2001:db8::1/128"),
        Reply::Reads(6, 3, Some("::/0")),
    ),
    (Ask::Insert("2001:d00::/25", 1), NEW),
    (
        Ask::Reads("2001:db8::1/128"),
        Reply::Reads(10, 4, Some("::/0")),
    ),
    (Ask::Insert("2001:db8:8000::/33", 1), NEW),
    (
        Ask::Reads("2001:db8::1/128"),
        Reply::Reads(15, 5, Some("::/0")),
    ),
    (Ask::Insert("2001:db8:80::/41", 1), NEW),
    (
        Ask::Reads("2001:db8::1/128"),
        Reply::Reads(21, 6, Some("::/0")),
    ),
    (Ask::Insert("2001:db8::1/128", 1), NEW),
    (
        Ask::Reads("2001:db8::1/128"),
        Reply::Reads(7, 1, Some("2001:db8::1/128")),
    ),
    (
        Ask::Reads("2001:db8::/64"),
        Reply::Reads(22, 6, Some("::/0")),
    ),
    (
        Ask::Reads("2001:db8:8000::/48"),
        Reply::Reads(5, 1, Some("2001:db8:8000::/33")),
    ),
    (
        Ask::Reads("2001:db8::/32"),
        Reply::Reads(15, 5, Some("::/0")),
    ),
];
