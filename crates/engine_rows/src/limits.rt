use cep_event::Moment;
use cep_plan::Due;
use std::test::Fail;
use time_limit::Limits;

#[test]
fn a_start_is_due_at_its_limit(rt: HostRuntime) -> Result<(), Fail> {
    let mut limits = Limits::new(rt.alloc(), Some(10), None);
    limits.add(3, 100)?;
    assert_eq!(rt; limits.next_due(Moment::At(109)), None);
    assert_eq!(rt; limits.next_due(Moment::At(110)), Some(Due::Start(3)));
    assert_eq!(rt; limits.next_due(Moment::End), None);
    Ok(())
}

#[test]
fn a_last_position_is_due_at_its_limit(rt: HostRuntime) -> Result<(), Fail> {
    let mut limits = Limits::new(rt.alloc(), None, Some(5));
    limits.add(3, 100)?;
    assert_eq!(rt; limits.next_due(Moment::At(104)), None);
    assert_eq!(rt; limits.next_due(Moment::At(105)), Some(Due::Last(3)));
    assert_eq!(rt; limits.next_due(Moment::End), None);
    Ok(())
}

#[test]
fn starts_are_due_before_last_positions(rt: HostRuntime) -> Result<(), Fail> {
    let mut limits = Limits::new(rt.alloc(), Some(10), Some(5));
    limits.add(3, 100)?;
    limits.add(4, 101)?;
    assert_eq!(rt; limits.next_due(Moment::At(105)), Some(Due::Last(3)));
    assert_eq!(rt; limits.next_due(Moment::At(105)), None);
    assert_eq!(rt; limits.next_due(Moment::At(111)), Some(Due::Start(3)));
    assert_eq!(rt; limits.next_due(Moment::At(111)), Some(Due::Start(4)));
    assert_eq!(rt; limits.next_due(Moment::At(111)), Some(Due::Last(4)));
    assert_eq!(rt; limits.next_due(Moment::At(111)), None);
    Ok(())
}

#[test]
fn a_range_of_starts_goes(rt: HostRuntime) -> Result<(), Fail> {
    let mut limits = Limits::new(rt.alloc(), Some(10), None);
    limits.add(3, 100)?;
    limits.drop_range(0, 3);
    assert_eq!(rt; limits.next_due(Moment::At(109)), None);
    limits.drop_range(3, 4);
    assert_eq!(rt; limits.next_due(Moment::End), None);
    Ok(())
}

#[test]
fn a_range_in_the_middle_goes(rt: HostRuntime) -> Result<(), Fail> {
    let mut limits = Limits::new(rt.alloc(), Some(10), None);
    limits.add(3, 100)?;
    limits.add(5, 100)?;
    limits.add(8, 101)?;
    limits.add(9, 101)?;
    limits.drop_range(5, 9);
    limits.drop_range(9, 9);
    limits.drop_range(9, 4);
    assert_eq!(rt; limits.next_due(Moment::End), Some(Due::Start(3)));
    assert_eq!(rt; limits.next_due(Moment::End), Some(Due::Start(9)));
    assert_eq!(rt; limits.next_due(Moment::End), None);
    Ok(())
}

#[test]
fn a_range_of_starts_leaves_last_positions(rt: HostRuntime) -> Result<(), Fail> {
    let mut limits = Limits::new(rt.alloc(), Some(10), Some(5));
    limits.add(3, 100)?;
    limits.drop_range(3, 4);
    assert_eq!(rt; limits.next_due(Moment::End), Some(Due::Last(3)));
    assert_eq!(rt; limits.next_due(Moment::End), None);
    Ok(())
}

#[test]
fn without_a_limit_nothing_is_due(rt: HostRuntime) -> Result<(), Fail> {
    let mut limits = Limits::new(rt.alloc(), None, None);
    limits.add(3, 100)?;
    assert_eq!(rt; limits.next_due(Moment::End), None);
    Ok(())
}
