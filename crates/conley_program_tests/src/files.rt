//! Files that stand for problems.

/// No cells.
pub(crate) const NO_CELLS: &str =
    r#"{"version":1,"scalars":2,"complex":{"kind":"lefschetz","cells":[],"incidences":[]},"field":{"kind":"whole","parts":[]}}"#;

/// One vertex.
pub(crate) const VERTEX: &str =
    r#"{"version":1,"scalars":2,"complex":{"kind":"lefschetz","cells":[["v",0]],"incidences":[]},"field":{"kind":"whole","parts":[]}}"#;

/// A regular part of a vertex and an edge, and the other end of the edge.
pub(crate) const EDGE: &str =
    r#"{"version":1,"scalars":2,"complex":{"kind":"lefschetz","cells":[["a",0],["b",0],["ab",1]],
        "incidences":[[2,0,1],[2,1,1]]},"field":{"kind":"whole","parts":[["a","ab"]]}}"#;

/// The same over three elements, with signs.
pub(crate) const SIGNED_EDGE: &str =
    r#"{"version":1,"scalars":3,"complex":{"kind":"lefschetz","cells":[["a",0],["b",0],["ab",1]],
        "incidences":[[2,0,-1],[2,1,1]]},"field":{"kind":"whole","parts":[["a","ab"]]}}"#;

/// The edge and its ends without parts.
pub(crate) const EDGE_WITHOUT_PARTS: &str =
    r#"{"version":1,"scalars":2,"complex":{"kind":"lefschetz","cells":[["a",0],["b",0],["ab",1]],
        "incidences":[[2,0,1],[2,1,1]]},"field":{"kind":"whole","parts":[]}}"#;

/// A critical part of three cells.
pub(crate) const CRITICAL_PART: &str =
    r#"{"version":1,"scalars":2,"complex":{"kind":"lefschetz","cells":[["a",0],["b",0],["ab",1]],
        "incidences":[[2,0,1],[2,1,1]]},"field":{"kind":"whole","parts":[["ab","b","a"]]}}"#;

/// Three edges round a triangle, each in a part with the vertex before it: a cycle.
pub(crate) const RING: &str =
    r#"{"version":1,"scalars":2,"complex":{"kind":"lefschetz","cells":[["a",0],["b",0],["c",0],["ab",1],["bc",1],["ca",1]],
        "incidences":[[3,0,1],[3,1,1],[4,1,1],[4,2,1],[5,2,1],[5,0,1]]},"field":{"kind":"whole","parts":[["a","ab"],["b","bc"],["c","ca"]]}}"#;

/// The same with the triangle above them.
pub(crate) const TRIANGLE: &str =
    r#"{"version":1,"scalars":2,"complex":{"kind":"lefschetz","cells":[["a",0],["b",0],["c",0],["ab",1],["bc",1],["ca",1],["abc",2]],
        "incidences":[[3,0,1],[3,1,1],[4,1,1],[4,2,1],[5,2,1],[5,0,1],[6,3,1],[6,4,1],[6,5,1]]},
        "field":{"kind":"whole","parts":[["a","ab"],["b","bc"],["c","ca"]]}}"#;

/// The hull of a vertex of this triangle with it, and named sets: one with a cell twice, and one without cells.
pub(crate) const HULL: &str =
    r#"{"version":1,"scalars":2,"complex":{"kind":"lefschetz","cells":[["a",0],["b",0],["c",0],["ab",1],["bc",1],["ca",1],["abc",2]],
        "incidences":[[3,0,1],[3,1,1],[4,1,1],[4,2,1],[5,2,1],[5,0,1],[6,3,1],[6,4,1],[6,5,1]]},
        "field":{"kind":"hull","parts":[["a","abc"]]},"sets":[["s.t",["b","b"]],["s.t",[]]]}"#;

/// The same three edges with one edge more over two of the vertices, and a cell of dimension 2 over that and an edge of the ring.
pub(crate) const HANDLE: &str =
    r#"{"version":1,"scalars":2,"complex":{"kind":"lefschetz","cells":[["a",0],["b",0],["c",0],["ab",1],["bc",1],["ca",1],["e",1],["t",2]],
        "incidences":[[3,0,1],[3,1,1],[4,1,1],[4,2,1],[5,2,1],[5,0,1],[6,0,1],[6,1,1],[7,6,1],[7,3,1]]},
        "field":{"kind":"whole","parts":[["a","ab"],["b","bc"],["c","ca"]]}}"#;

/// One regular part of an edge without ends and a cell above it.
pub(crate) const REGULAR_PART: &str =
    r#"{"version":1,"scalars":2,"complex":{"kind":"lefschetz","cells":[["e",1],["f",2]],
        "incidences":[[1,0,1]]},"field":{"kind":"whole","parts":[["e","f"]]}}"#;

/// Two parts that reach each other and have no homology over three elements.
pub(crate) const TWISTED_RING: &str =
    r#"{"version":1,"scalars":3,"complex":{"kind":"lefschetz","cells":[["a",0],["b",0],["e1",1],["e2",1]],
        "incidences":[[2,0,-1],[2,1,1],[3,0,1],[3,1,1]]},"field":{"kind":"whole","parts":[["a","e1"],["b","e2"]]}}"#;

/// The same over two elements: a cycle.
pub(crate) const PLAIN_RING: &str =
    r#"{"version":1,"scalars":2,"complex":{"kind":"lefschetz","cells":[["a",0],["b",0],["e1",1],["e2",1]],
        "incidences":[[2,0,-1],[2,1,1],[3,0,1],[3,1,1]]},"field":{"kind":"whole","parts":[["a","e1"],["b","e2"]]}}"#;

/// An edge that reaches a vertex of its own, and by way of a regular part one that is no face of it.
pub(crate) const PATH: &str =
    r#"{"version":1,"scalars":2,"complex":{"kind":"lefschetz","cells":[["a",0],["b",0],["c",0],["ab",1],["bc",1]],
        "incidences":[[3,0,1],[3,1,1],[4,1,1],[4,2,1]]},"field":{"kind":"whole","parts":[["b","bc"]]}}"#;

/// A cell of dimension 2 that reaches a vertex by way of two edges, so these two are no cover.
pub(crate) const TWO_WAYS: &str =
    r#"{"version":1,"scalars":2,"complex":{"kind":"lefschetz","cells":[["v",0],["e",1],["g",1],["f",2]],
        "incidences":[[1,0,1],[2,0,1],[3,1,1],[3,2,1]]},"field":{"kind":"whole","parts":[]}}"#;

/// A cell with twice an edge under it, which is zero over two elements and not over three.
pub(crate) const DOUBLED: &str =
    r#"{"version":1,"scalars":3,"complex":{"kind":"lefschetz","cells":[["v",0],["e",1],["f",2]],
        "incidences":[[2,1,2]]},"field":{"kind":"whole","parts":[]}}"#;

/// The same over five elements, with the cell and the edge in one part: it is regular, since two has an inverse.
pub(crate) const DOUBLED_PART: &str =
    r#"{"version":1,"scalars":5,"complex":{"kind":"lefschetz","cells":[["v",0],["e",1],["f",2]],
        "incidences":[[2,1,2]]},"field":{"kind":"whole","parts":[["e","f"]]}}"#;

/// An interval as a cube, without parts.
pub(crate) const INTERVAL: &str =
    r#"{"version":1,"scalars":2,"complex":{"kind":"cubical","axes":1,"cubes":[[[0,1]]]},"field":{"kind":"whole","parts":[]}}"#;

/// A torus with seven vertices, every two of them joined, whose 42 cells are one part.
pub(crate) const TORUS: &str =
    r#"{"version":1,"scalars":2,"complex":{"kind":"simplicial","vertices":["0","1","2","3","4","5","6"],"simplices":[[0,1,3],[1,2,4],[2,3,5],[3,4,6],[4,5,0],[5,6,1],[6,0,2],[0,2,3],[1,3,4],[2,4,5],[3,5,6],[4,6,0],[5,0,1],[6,1,2]]},
        "field":{"kind":"whole","parts":[["0","1","2","3","4","5","6","0.1","0.2","0.3","0.4","0.5","0.6",
        "1.2","1.3","1.4","1.5","1.6","2.3","2.4","2.5","2.6","3.4","3.5","3.6","4.5","4.6","5.6",
        "0.1.3","0.1.5","0.2.3","0.2.6","0.4.5","0.4.6","1.2.4","1.2.6","1.3.4","1.5.6","2.3.5","2.4.5","3.4.6","3.5.6"]]}}"#;

/// Two edges and a disc without the vertices; the disc has one of the edges under it, and is in a part with the other.
pub(crate) const HALF_DISC: &str =
    r#"{"version":1,"scalars":2,"complex":{"kind":"lefschetz","cells":[["f",1],["g",1],["h",2]],
        "incidences":[[2,0,1]]},"field":{"kind":"whole","parts":[["g","h"]]}}"#;
