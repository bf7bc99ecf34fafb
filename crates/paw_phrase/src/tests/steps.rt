// Steps, noted past their limit.

use paw_base::steps::{StepRow, Steps};
use std::process::Abort;
use std::test::Fail;

fn step(entry: u16) -> StepRow {
    StepRow {
        table: 1,
        entry,
        at: 2,
        code: 30,
        yes: true,
    }
}

fn note(rt: &impl Abort, steps: &mut Steps, entry: u16) {
    assert!(rt; steps.count() < 1_000_000);
    steps.note(step(entry));
}

#[test]
fn the_first_thousand_steps_are_kept_and_all_are_counted(rt: HostRuntime) -> Result<(), Fail> {
    let mut steps = Steps::new();
    assert!(rt; steps.rows().is_empty() && steps.count() == 0);
    for entry in 0..1001 {
        note(&rt, &mut steps, entry);
    }
    assert_eq!(rt; steps.rows().last(), Some(&step(999)));
    assert_eq!(rt; (steps.rows().len(), steps.count()), (1000, 1001));
    steps.clear();
    note(&rt, &mut steps, 7);
    assert_eq!(rt; steps.rows(), [step(7)].as_slice());
    assert_eq!(rt; steps.count(), 1);
    Ok(())
}

#[test]
fn steps_that_are_only_counted_have_no_rows(rt: HostRuntime) -> Result<(), Fail> {
    let mut steps = Steps::new();
    note(&rt, &mut steps, 0);
    steps.count_only();
    assert!(rt; steps.rows().is_empty() && steps.count() == 1);
    for entry in 0..3 {
        note(&rt, &mut steps, entry);
    }
    assert!(rt; steps.rows().is_empty() && steps.count() == 4);
    steps.clear();
    note(&rt, &mut steps, 0);
    assert!(rt; steps.rows().is_empty() && steps.count() == 1);
    Ok(())
}
