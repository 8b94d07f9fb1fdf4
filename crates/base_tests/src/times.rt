//! Times, read and printed.

use std::cmp::Ordering;
use std::process::Abort;
use std::test::Fail;
use value_model::Timestamp;

static TIMES: [(&str, i64, u32); 6] = [
    ("1970-01-01T00:00:00Z", 0, 0),
    ("1969-12-31T23:59:59Z", -1, 0),
    ("0001-01-01T00:00:00Z", -62_135_596_800, 0),
    (
        "9999-12-31T23:59:59.999999999Z",
        253_402_300_799,
        999_999_999,
    ),
    ("2024-02-29T00:00:00Z", 1_709_164_800, 0),
    ("2024-05-01T00:00:01.5Z", 1_714_521_601, 500_000_000),
];

static NO_TIMES: [&str; 13] = [
    "2023-02-29T00:00:00Z",
    "2024-02-30T00:00:00Z",
    "0000-01-01T00:00:00Z",
    "2024-05-01T24:00:00Z",
    "2024-05-01T00:00:60Z",
    "2024-05-01T00:00:00+00:00",
    "2024-05-01t00:00:00Z",
    "2024-05-01T00:00:00z",
    "2024-05-01T00:00:00",
    "2024-05-01T00:00:00.Z",
    "2024-05-01T00:00:00.1234567890Z",
    "2024-05-01T00:00:00,5Z",
    "",
];

static PRINTED: [(&str, &str); 7] = [
    ("2024-05-01T00:00:01Z", "2024-05-01T00:00:01Z"),
    ("2024-05-01T00:00:01.500Z", "2024-05-01T00:00:01.500Z"),
    ("2024-05-01T00:00:01.5000Z", "2024-05-01T00:00:01.500Z"),
    ("2024-05-01T00:00:01.0001Z", "2024-05-01T00:00:01.000100Z"),
    (
        "2024-12-31T23:59:59.000000001Z",
        "2024-12-31T23:59:59.000000001Z",
    ),
    ("0001-01-01T00:00:00Z", "0001-01-01T00:00:00Z"),
    ("9999-12-31T23:59:59.999Z", "9999-12-31T23:59:59.999Z"),
];

#[test]
fn times(rt: HostRuntime) {
    for (text, seconds, nanos) in TIMES {
        assert!(rt;
            Timestamp::read(text) == Some(Timestamp { seconds, nanos }),
            "{text}"
        );
    }
}

#[test]
fn no_times(rt: HostRuntime) {
    for text in NO_TIMES {
        assert!(rt; Timestamp::read(text).is_none(), "{text}");
    }
}

fn check_printed(rt: &(impl Abort + AllocGlobal), text: &str, wanted: &str) -> Result<(), Fail> {
    let time = Timestamp::read(text).ok_or("a time")?;
    let printed = time.print(rt.alloc())?;
    assert!(rt; printed.as_str() == wanted, "{text}");
    Ok(())
}

#[test]
fn printed_times(rt: HostRuntime) -> Result<(), Fail> {
    for (text, wanted) in PRINTED {
        check_printed(&rt, text, wanted)?;
    }
    Ok(())
}

#[test]
fn a_later_time(rt: HostRuntime) -> Result<(), Fail> {
    let early = Timestamp::read("1969-12-31T23:59:59Z").ok_or("a time")?;
    let late = Timestamp::read("1970-01-01T00:00:00Z").ok_or("a time")?;
    assert!(rt; early.compare(&late) == Ordering::Less);
    Ok(())
}
