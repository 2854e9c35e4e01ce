use crate::counter::{raised_by_two, woken};
use crate::light::{Light, switched};
use crate::row::visited;
use std::test::*;

#[test]
fn two_threads_take_a_thousand_turns_each(rt: HostRuntime) -> Result<(), Fail> {
    assert_eq!(rt; raised_by_two(&rt, rt.alloc())?, 2000);
    Ok(())
}

#[test]
fn a_turn_of_another_thread_ends_a_wait(rt: HostRuntime) -> Result<(), Fail> {
    assert_eq!(rt; woken(&rt, rt.alloc())?, (1, 2));
    Ok(())
}

#[test]
fn an_object_of_another_kind(rt: HostRuntime) -> Result<(), Fail> {
    assert!(rt; matches!(switched(&rt, rt.alloc())?, Light::Green));
    Ok(())
}

#[test]
fn a_value_owns_a_seat_of_another(rt: HostRuntime) -> Result<(), Fail> {
    assert_eq!(rt; visited(&rt, rt.alloc())?, (1, 2));
    Ok(())
}
