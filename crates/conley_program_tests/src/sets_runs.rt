//! Whole runs of `sets FILE`.

use crate::files::{EDGE, HULL, NO_CELLS};
use crate::running::{Row, expect_printed};
use std::test::Fail;

/// The ring below a triangle, with five named sets: what holds the flow above, a part that the flow leaves, all cells, a cell that the flow leaves, and none.
const NAMED: &str =
    r#"{"version":1,"scalars":2,"complex":{"kind":"lefschetz","cells":[["a",0],["b",0],["c",0],["ab",1],["bc",1],["ca",1],["abc",2]],
        "incidences":[[3,0,1],[3,1,1],[4,1,1],[4,2,1],[5,2,1],[5,0,1],[6,3,1],[6,4,1],[6,5,1]]},
        "field":{"kind":"whole","parts":[["a","ab"],["b","bc"],["c","ca"]]},
        "sets":[["top",["abc"]],["half",["a","ab"]],["all",["a","b","c","ab","bc","ca","abc"]],["foot",["a"]],["none",[]]]}"#;

/// Three points of rest on an edge, each a set, named twice or with a cell twice; and a set that lacks what lies between its cells.
const RESTING: &str =
    r#"{"version":1,"scalars":2,"complex":{"kind":"lefschetz","cells":[["a",0],["b",0],["ab",1]],"incidences":[[2,0,1],[2,1,1]]},
        "field":{"kind":"whole","parts":[]},"sets":[["a.b",["b","a","b"]],["ab",["ab"]],["ab",["ab","a"]]]}"#;

/// A cell of dimension 2 without the edge that lies between it and its vertex: each rests, and a walk leads from one to the other outside the set.
const GAP: &str =
    r#"{"version":1,"scalars":3,"complex":{"kind":"lefschetz","cells":[["v",0],["e",1],["g",1],["f",2]],
        "incidences":[[1,0,1],[2,0,-1],[3,1,1],[3,2,1]]},"field":{"kind":"whole","parts":[]},"sets":[["ends",["f","v"]],["three",["f","e","v"]]]}"#;

/// A cell of a critical part rests, but not the cell by itself: its part reaches beyond the set.
const HALF: &str =
    r#"{"version":1,"scalars":2,"complex":{"kind":"lefschetz","cells":[["a",0],["b",0],["ab",1]],"incidences":[[2,0,1],[2,1,1]]},
        "field":{"kind":"whole","parts":[["a","b","ab"]]},"sets":[["half",["a"]],["whole",["ab","a","b"]]]}"#;

/// Problems, with what is printed of their named sets.
const PRINTED: [Row; 7] = [
    (NO_CELLS, ""),
    (EDGE, ""),
    (
        HULL,
        "set s.t isolated yes index 1 0 0 invariant b\nset s.t isolated yes index 0 0 0 invariant\n",
    ),
    (
        NAMED,
        "set top isolated yes index 0 0 1 invariant abc\n\
         set half isolated no invariant\n\
         set all isolated yes index 1 0 0 invariant a b c ab bc ca abc\n\
         set foot isolated no invariant\n\
         set none isolated yes index 0 0 0 invariant\n",
    ),
    (
        RESTING,
        "set a.b isolated yes index 2 0 invariant a b\n\
         set ab isolated yes index 0 1 invariant ab\n\
         set ab isolated yes index 0 0 invariant a ab\n",
    ),
    (
        GAP,
        "set ends isolated no invariant v f\n\
         set three isolated no invariant v e f\n",
    ),
    (
        HALF,
        "set half isolated no invariant a\n\
         set whole isolated yes index 1 0 invariant a b ab\n",
    ),
];

#[test]
fn named_sets_are_told(rt: HostRuntime) -> Result<(), Fail> {
    Ok(expect_printed(&rt, rt.alloc(), "sets", &PRINTED)?)
}
