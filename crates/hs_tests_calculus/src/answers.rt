use crate::toy::Toy;
use hs_calculus::{Bounds, prove};
use std::test::Fail;

// 2 leads to 0 by a forced step, and a greater number than 4 by a long row of them. 4 and 3 have two choices, of which
// the second is paid.
#[test]
fn derivations_and_causes(rt: HostRuntime) -> Result<(), Fail> {
    let alloc = rt.alloc();
    for (goal, rank, goals, expected) in [
        (
            4,
            1,
            20,
            "Valid([Items { items: [Down, Down, End] }, Items { items: [Twice, Down, End, Down, End] }])",
        ),
        (4, 1, 2, "Unknown(Goals)"),
        (3, 0, 20, "Unknown(Rank)"),
        (3, 1, 20, "Unknown(Failed(1))"),
        (22_003, 1, 20_000, "Unknown(Failed(1))"),
    ] {
        let bounds = Bounds {
            rank,
            goals,
            wanted: 3,
        };
        let answer = prove(&Toy, alloc, goal, bounds)?;
        assert_eq!(rt; format!(in alloc; "{answer:?}")?.as_str(), expected);
    }
    Ok(())
}
