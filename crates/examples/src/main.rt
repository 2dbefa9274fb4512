// Runs the checked examples of document 01, 1 to 15, on the proved code. Each line has the example's number, what is asked, and what the code
// answered, in the paper's words. crates/examples/stdout is written from the papers.
#![tactic(auto)]

use crate::given::Change::{Add, Learner, Remove};
use crate::given::{conf_state, fresh, group, list, none, voters};
use std::io;

mod given; // what the examples begin from
mod ask; // a call made, and its line printed
mod answered; // the text of what is answered
mod state; // the text of a state

// Fresh, simple add 1.
fn example_1(rt: &impl Print) -> io::Result<()> {
    ask::simple(rt, "1 fresh, simple add 1: ", fresh(), &[Add(1)])?;
    Ok(())
}

// Fresh, simple with empty list, or add 0.
fn example_2(rt: &impl Print) -> io::Result<()> {
    ask::simple(rt, "2 fresh, simple with empty list: ", fresh(), &[])?;
    ask::simple(rt, "2 fresh, simple add 0: ", fresh(), &[Add(0)])?;
    Ok(())
}

// Fresh, simple add 1, add 2.
fn example_3(rt: &impl Print) -> io::Result<()> {
    ask::simple(
        rt,
        "3 fresh, simple add 1, add 2: ",
        fresh(),
        &[Add(1), Add(2)],
    )?;
    Ok(())
}

// Voters (1), simple add 2, remove 2: counting changes would refuse it.
fn example_4(rt: &impl Print) -> io::Result<()> {
    ask::simple(
        rt,
        "4 voters (1), simple add 2, remove 2: ",
        voters(&[1]),
        &[Add(2), Remove(2)],
    )?;
    Ok(())
}

// Voters (1 2 3), simple remove 3, add 4.
fn example_5(rt: &impl Print) -> io::Result<()> {
    ask::simple(
        rt,
        "5 voters (1 2 3), simple remove 3, add 4: ",
        voters(&[1, 2, 3]),
        &[Remove(3), Add(4)],
    )?;
    Ok(())
}

// Voters (1), simple remove 1.
fn example_6(rt: &impl Print) -> io::Result<()> {
    ask::simple(
        rt,
        "6 voters (1), simple remove 1: ",
        voters(&[1]),
        &[Remove(1)],
    )?;
    Ok(())
}

// Fresh, enter add 1.
fn example_7(rt: &impl Print) -> io::Result<()> {
    ask::enter(rt, "7 fresh, enter add 1: ", fresh(), &[Add(1)])?;
    Ok(())
}

// Voters (1 2 3), enter learner 3, add 4; leave.
fn example_8(rt: &impl Print) -> io::Result<()> {
    let t = ask::enter(
        rt,
        "8 voters (1 2 3), enter learner 3, add 4: ",
        voters(&[1, 2, 3]),
        &[Learner(3), Add(4)],
    )?;
    ask::leave(rt, "8 leave: ", t)?;
    Ok(())
}

// Voters (1 2 3), enter remove 3; leave.
fn example_9(rt: &impl Print) -> io::Result<()> {
    let t = ask::enter(
        rt,
        "9 voters (1 2 3), enter remove 3: ",
        voters(&[1, 2, 3]),
        &[Remove(3)],
    )?;
    ask::leave(rt, "9 leave: ", t)?;
    Ok(())
}

// Voters (1), learners (2), simple remove 2, learner 2. The record of 2, at place 1, was in use; then it is a fresh one.
fn example_10(rt: &impl Print) -> io::Result<()> {
    let mut before = group(list(&[1]), list(&[2]));
    before.records[1].matched = 9;
    let after = ask::simple(
        rt,
        "10 voters (1), learners (2), simple remove 2, learner 2: ",
        before,
        &[Remove(2), Learner(2)],
    )?;
    ask::record(rt, "10 record of 2 before: ", before.records[1])?;
    ask::record(rt, "10 record of 2 after: ", after.records[1])
}

// Fresh, restore voters (1 2 3), learners (5), outgoing (1 2 4 6), staged (4); its last step alone, since `restore` gives no log; leave. The last step is
// asked of what the steps before it leave, and its list is made of the lists that are restored.
fn example_11(rt: &impl Print) -> io::Result<()> {
    let cs = conf_state(
        list(&[1, 2, 3]),
        list(&[5]),
        list(&[1, 2, 4, 6]),
        list(&[4]),
    );
    let t = ask::restore(
        rt,
        "11 fresh, restore voters (1 2 3), learners (5), outgoing (1 2 4 6), staged (4): ",
        cs,
    )?;
    let before = ask::restore(
        rt,
        "11 its steps before the last, fresh, restore voters (1 2 4 6): ",
        given::outgoing_first(cs),
    )?;
    ask::enter_last(rt, "11 its last step: ", before, cs)?;
    ask::leave(rt, "11 leave: ", t)?;
    Ok(())
}

// Fresh, restore voters (1 2), learners (1 2): step by step, as document 01 has it, and whole (document 02, g).
fn example_12(rt: &impl Print) -> io::Result<()> {
    ask::restore_step_by_step(
        rt,
        "12 fresh, restore_step_by_step voters (1 2), learners (1 2): ",
        conf_state(list(&[1, 2]), list(&[1, 2]), none(), none()),
    )?;
    ask::restore(
        rt,
        "12 fresh, restore voters (1 2), learners (1 2): ",
        conf_state(list(&[1, 2]), list(&[1, 2]), none(), none()),
    )?;
    Ok(())
}

// Fresh, restore voters (0 1), and (1 0).
fn example_13(rt: &impl Print) -> io::Result<()> {
    ask::restore(
        rt,
        "13 fresh, restore voters (0 1): ",
        conf_state(list(&[0, 1]), none(), none(), none()),
    )?;
    ask::restore(
        rt,
        "13 fresh, restore voters (1 0): ",
        conf_state(list(&[1, 0]), none(), none(), none()),
    )?;
    Ok(())
}

// Incoming (1 2), outgoing (1 2), staged (2), tracked 1 and 2: the check, whether it is in order (document 02, h), and leave.
fn example_14(rt: &impl Print) -> io::Result<()> {
    let t = given::stuck();
    ask::check(
        rt,
        "14 incoming (1 2), outgoing (1 2), staged (2), tracked 1 and 2: ",
        t,
    )?;
    ask::in_order(rt, "14 in order: ", t)?;
    ask::leave(rt, "14 leave: ", t)?;
    Ok(())
}

// Voters 1 to 63, learner 64: room freed in the list is used after it was freed, and not before.
fn example_15_room(rt: &impl Print) -> io::Result<()> {
    let full = group(given::one_to_63(), list(&[64]));
    ask::simple(
        rt,
        "15 voters 1 to 63, learner 64, simple remove 64, learner 65: ",
        full,
        &[Remove(64), Learner(65)],
    )?;
    ask::simple(
        rt,
        "15 voters 1 to 63, learner 64, simple learner 65, remove 64: ",
        full,
        &[Learner(65), Remove(64)],
    )?;
    Ok(())
}

// A list of 256 is read, up to its last change; one of 257 is not. The others are add 0, which is skipped.
fn example_15_length(rt: &impl Print) -> io::Result<()> {
    let mut changes = [Add(0); 257];
    changes[256] = Learner(2);
    ask::simple(
        rt,
        "15 voters (1), simple with a list of 256, the last learner 2: ",
        voters(&[1]),
        &changes[1..],
    )?;
    ask::simple(
        rt,
        "15 voters (1), simple with a list of 257, the last learner 2: ",
        voters(&[1]),
        &changes,
    )?;
    Ok(())
}

fn main(rt: HostRuntime) -> io::Result<()> {
    example_1(&rt)?;
    example_2(&rt)?;
    example_3(&rt)?;
    example_4(&rt)?;
    example_5(&rt)?;
    example_6(&rt)?;
    example_7(&rt)?;
    example_8(&rt)?;
    example_9(&rt)?;
    example_10(&rt)?;
    example_11(&rt)?;
    example_12(&rt)?;
    example_13(&rt)?;
    example_14(&rt)?;
    example_15_room(&rt)?;
    example_15_length(&rt)?;
    Ok(())
}
