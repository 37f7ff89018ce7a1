//! A text that several tests read or write.

/// A fragment with one line for each channel and more, its fields at the ends of their ranges.
pub(crate) const ALL_CHANNELS: &str =
    "fragment port_7 4294967295 5 18446744073709551615\n5 A 7 0 15 65535 ffffffffffffffff ffffffffffffffff 1\n5 B 0 7 0 0 0 0 0\n5 C 7 5 6 9 1000 1\n5 D 5 0 3 10 65535 1 0\n5 E 65535\n18446744073709551615 D 1 0 3 0 0 0 1\nend\n";
