// Rows of numbers.
use std::test::Fail;

#[test]
fn products(rt: HostRuntime) -> Result<(), Fail> {
    let mut out = [0; 8];
    lanes::mul(&[-1; 8], &[1; 8], &mut out);
    assert_eq!(rt; out, [-1; 8]);
    lanes::mul(&[-1; 8], &[2147483647; 8], &mut out);
    assert_eq!(rt; out, [-32768; 8]);
    Ok(())
}

#[test]
fn masks(rt: HostRuntime) -> Result<(), Fail> {
    let mut mask = [0; 3];
    let mut out = [0; 3];
    lanes::less(&[1, 2, 3], &[2, 2, 2], &mut mask);
    assert_eq!(rt; mask, [-1, 0, 0]);
    assert!(rt; lanes::any(&mask));
    lanes::select(&mask, &[4, 5, 6], &[7, 8, 9], &mut out);
    assert_eq!(rt; out, [4, 8, 9]);
    Ok(())
}
