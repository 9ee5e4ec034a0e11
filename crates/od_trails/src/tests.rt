//! Three first choices; behind the choice 0 those of 1 and 2 may follow, behind 1 none, and
//! behind 2 that of 0.
use crate::trails::Trails;
use od_text::list::List;
use od_text::text::NoMemory;
use std::alloc::Global;
use std::test::Fail;

fn targets(alloc: Global) -> Result<List<List<u32>>, NoMemory> {
    let mut behind_first = List::new(alloc);
    behind_first.push(1)?;
    behind_first.push(2)?;
    let mut behind_third = List::new(alloc);
    behind_third.push(0)?;
    let mut targets = List::new(alloc);
    targets.push(behind_first)?;
    targets.push(List::new(alloc))?;
    targets.push(behind_third)?;
    Ok(targets)
}

#[test]
fn rows_go_on_with_what_may_follow(rt: HostRuntime) -> Result<(), Fail> {
    let alloc = rt.alloc();
    let targets = targets(alloc)?;
    let mut rows = Trails::new(alloc);
    rows.branch_below(alloc, 3)?;
    rows.branch(alloc, targets.get())?;
    rows.branch(alloc, targets.get())?;
    let expected = [[0, 2, 0], [2, 0, 1], [2, 0, 2]];
    assert_eq!(rt; rows.len(), expected.len());
    for (i, row) in expected.iter().enumerate() {
        if i < rows.len() {
            let found = rows.row(alloc, i)?;
            assert_eq!(rt; found.as_slice(), row.as_slice(), "row {i}");
        }
    }
    Ok(())
}
