//! Decimals of sources, and plain ones.

use std::test::Fail;
use word_scan::{decimal, plain_decimal};

#[test]
fn decimals_are_read(rt: HostRuntime) -> Result<(), Fail> {
    let cases: [(&[u8], Option<u32>, Option<u32>); 8] = [
        (b"", None, None),
        (b"0", Some(0), Some(0)),
        (b"07", Some(7), None),
        (b"000000000000", Some(0), None),
        (b"4294967295", Some(u32::MAX), Some(u32::MAX)),
        (b"4294967296", None, None),
        (b"1a", None, None),
        (b"-1", None, None),
    ];
    for (text, lenient, plain) in cases {
        assert_eq!(rt; decimal(text), lenient);
        assert_eq!(rt; plain_decimal(text), plain);
    }
    Ok(())
}
