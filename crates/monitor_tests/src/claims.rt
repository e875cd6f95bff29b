//! The claims of iterations: each number once and in order, also by two seats.

use iter_claim::Claims;
use std::test::*;

#[test]
fn of_two_claims_each_comes_once_and_in_order(rt: HostRuntime) -> Result<(), Fail> {
    let (claims, mut seat) = Claims::make(rt.alloc(), 2)?;
    assert_eq!(rt; seat.claim(&claims), Some(0));
    assert_eq!(rt; seat.claim(&claims), Some(1));
    assert_eq!(rt; seat.claim(&claims), None);
    assert_eq!(rt; seat.claim(&claims), None);
    claims.close(seat);
    Ok(())
}

#[test]
fn two_seats_share_the_numbers(rt: HostRuntime) -> Result<(), Fail> {
    let (claims, mut first) = Claims::make(rt.alloc(), 3)?;
    let mut second = first.split(&claims);
    assert_eq!(rt; second.claim(&claims), Some(0));
    assert_eq!(rt; first.claim(&claims), Some(1));
    assert_eq!(rt; second.claim(&claims), Some(2));
    assert_eq!(rt; second.claim(&claims), None);
    first.join(&claims, second);
    assert_eq!(rt; first.claim(&claims), None);
    claims.close(first);
    Ok(())
}
