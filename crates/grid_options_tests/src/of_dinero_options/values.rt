//! How sizes and counts are read.

use super::same;
use dinero_options::{read_count, read_size};

#[test]
fn reads_a_size_with_and_without_its_unit(rt: HostRuntime) {
    static ROWS: [(&str, Option<u64>); 13] = [
        ("8k", Some(8192)),
        ("8K", Some(8192)),
        ("1M", Some(1_048_576)),
        ("1m", Some(1_048_576)),
        ("0016", Some(16)),
        ("999999999999k", Some(1_023_999_999_998_976)),
        ("", None),
        ("k", None),
        ("+8", None),
        ("8 k", None),
        ("8kk", None),
        ("8g", None),
        ("1000000000000", None),
    ];
    for (text, size) in &ROWS {
        same(&rt, &read_size(*text), size, *text);
    }
}

#[test]
fn reads_a_count_of_at_most_twelve_digits(rt: HostRuntime) {
    static ROWS: [(&str, Option<u64>); 7] = [
        ("0", Some(0)),
        ("007", Some(7)),
        ("999999999999", Some(999_999_999_999)),
        ("", None),
        ("1k", None),
        ("-1", None),
        ("1000000000000", None),
    ];
    for (text, count) in &ROWS {
        same(&rt, &read_count(*text), count, *text);
    }
}
