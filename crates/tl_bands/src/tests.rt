//! Cuts of few rows.

use crate::{Cut, CutFault};
use std::test::Fail;

#[test]
fn a_cut_of_two_bands(rt: HostRuntime) -> Result<(), Fail> {
    let cut = Cut::of(rt.alloc(), &[0, 2], 3)?;
    assert_eq!(rt; cut.count(), 2);
    assert_eq!(rt; cut.first(0), 0);
    assert_eq!(rt; cut.first(1), 2);
    Ok(())
}

#[test]
fn the_first_bad_number_is_told(rt: HostRuntime) {
    let cases: [(&[u32], u32); 6] = [
        (&[0, 3], 1),
        (&[], 0),
        (&[1, 2], 0),
        (&[0, 0, 1], 1),
        (&[0, 2, 1, 7], 2),
        (&[0, 1, 2, 3], 3),
    ];
    for (firsts, number) in cases {
        match Cut::of(rt.alloc(), firsts, 3) {
            Ok(_) => assert!(rt; false),
            Err(fault) => assert_eq!(rt; fault, CutFault::BadFirst(number)),
        }
    }
}

#[test]
fn even_cuts_leave_out_bands_without_a_row(rt: HostRuntime) -> Result<(), Fail> {
    let cut = Cut::even(rt.alloc(), 3, 7)?;
    assert_eq!(rt; cut.count(), 3);
    assert_eq!(rt; cut.first(0), 0);
    assert_eq!(rt; cut.first(1), 1);
    assert_eq!(rt; cut.first(2), 2);
    let cut = Cut::even(rt.alloc(), 10, 4)?;
    assert_eq!(rt; cut.count(), 4);
    assert_eq!(rt; cut.first(1), 2);
    assert_eq!(rt; cut.first(2), 5);
    assert_eq!(rt; cut.first(3), 7);
    Ok(())
}
