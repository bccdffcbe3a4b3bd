//! Whole runs of `field FILE`.

use crate::files::{
    CRITICAL_PART, DOUBLED, DOUBLED_PART, EDGE, HALF_DISC, HULL, INTERVAL, NO_CELLS, REGULAR_PART,
    TRIANGLE, TWISTED_RING,
};
use crate::running::{Row, expect_printed};
use std::test::Fail;

/// The hull of a vertex of a triangle with it, and of another vertex with the edge between the two.
const TWO_LISTS: &str =
    r#"{"version":1,"scalars":2,"complex":{"kind":"lefschetz","cells":[["a",0],["b",0],["c",0],["ab",1],["bc",1],["ca",1],["abc",2]],
        "incidences":[[3,0,1],[3,1,1],[4,1,1],[4,2,1],[5,2,1],[5,0,1],[6,3,1],[6,4,1],[6,5,1]]},
        "field":{"kind":"hull","parts":[["a","abc"],["b","ab"]]}}"#;

/// Problems, with the parts that are printed.
const PRINTED: [Row; 12] = [
    (NO_CELLS, ""),
    (EDGE, "regular a ab\ncritical b\n"),
    (CRITICAL_PART, "critical a b ab\n"),
    (
        TRIANGLE,
        "regular a ab\nregular b bc\nregular c ca\ncritical abc\n",
    ),
    (REGULAR_PART, "regular e f\n"),
    (TWISTED_RING, "regular a e1\nregular b e2\n"),
    (DOUBLED, "critical v\ncritical e\ncritical f\n"),
    (DOUBLED_PART, "critical v\nregular e f\n"),
    // The edge g isn't under h, so the two are a cycle each.
    (HALF_DISC, "critical f\ncritical g h\n"),
    (
        HULL,
        "regular a ab ca abc\ncritical b\ncritical c\ncritical bc\n",
    ),
    // The two lists share no cell; what lies between a and abc joins them.
    (TWO_LISTS, "regular a b ab bc ca abc\ncritical c\n"),
    (INTERVAL, "critical 0\ncritical 1\ncritical 0+\n"),
];

#[test]
fn parts_are_printed(rt: HostRuntime) -> Result<(), Fail> {
    Ok(expect_printed(&rt, rt.alloc(), "field", &PRINTED)?)
}
