use crate::{each_beside, work_beside};
use std::sync::Barrier;
use std::test::Fail;

#[test]
fn each_piece_has_a_thread_while_there_are_some(rt: HostRuntime) -> Result<(), Fail> {
    let all = Barrier::new(5);
    let mut seats = [false; 3];
    let mark = |has_thread: bool, seat: &mut bool| {
        all.wait(&rt);
        *seat = has_thread;
    };
    let (beside, here) = each_beside(
        &rt,
        &mark,
        &mut || {
            work_beside(
                &rt,
                &mut |has_thread: bool| {
                    all.wait(&rt);
                    has_thread
                },
                &mut || {
                    all.wait(&rt);
                    7
                },
            )
        },
        &mut seats,
    );
    assert!(rt; seats == [true; 3] && beside && here == 7);
    Ok(())
}

#[test]
fn no_element_leaves_the_rest_alone(rt: HostRuntime) -> Result<(), Fail> {
    let mut none: [u32; 0] = [];
    let double = |_: bool, x: &mut u32| *x = x.wrapping_mul(2);
    assert!(rt; each_beside(&rt, &double, &mut || 5, &mut none) == 5);
    let mut some = [1, 2, 3];
    assert!(rt; each_beside(&rt, &double, &mut || 5, &mut some) == 5);
    assert!(rt; some == [2, 4, 6]);
    Ok(())
}
