//! Files that are refused, and what is told of them.

use crate::running::Row;

/// Files that are refused. Where two faults stand in a file, the earlier is told.
pub(crate) const REFUSED: [Row; 38] = [
    // Cut.
    (
        r#"{"version":1,"scalars":2,"complex":{"kind":"lefsch"#,
        "refused E1\n",
    ),
    // No object.
    (r#"[1]"#, "refused E2 1\n"),
    // A version of another kind, and an order of no field.
    (
        r#"{"version":2,"scalars":6,"complex":{"kind":"lefschetz","cells":[["a",0],["b",0],["ab",1]],
            "incidences":[[2,0,1],[2,1,1]]},"field":{"kind":"whole","parts":[]}}"#,
        "refused E2 1\n",
    ),
    // No field.
    (
        r#"{"version":1,"scalars":2,"complex":{"kind":"lefschetz","cells":[["a",0],["b",0],["ab",1]],"incidences":[[2,0,1],[2,1,1]]}}"#,
        "refused E2 7\n",
    ),
    // A simplex with a vertex twice.
    (
        r#"{"version":1,"scalars":2,"complex":{"kind":"simplicial","vertices":["a","b"],"simplices":[[0,0]]},"field":{"kind":"whole","parts":[]}}"#,
        "refused E8 1 0\n",
    ),
    // A pair that is too wide.
    (
        r#"{"version":1,"scalars":2,"complex":{"kind":"cubical","axes":1,"cubes":[[[0,2]]]},"field":{"kind":"whole","parts":[]}}"#,
        "refused E8 3 0\n",
    ),
    // A hull, and an order of no field.
    (
        r#"{"version":1,"scalars":6,"complex":{"kind":"lefschetz","cells":[["a",0],["b",0],["ab",1]],
            "incidences":[[2,0,1],[2,1,1]]},"field":{"kind":"hull","parts":[]}}"#,
        "refused E3 6\n",
    ),
    // An order of no field.
    (
        r#"{"version":1,"scalars":6,"complex":{"kind":"lefschetz","cells":[["a",0],["b",0],["ab",1]],
            "incidences":[[2,0,1],[2,1,1]]},"field":{"kind":"whole","parts":[]}}"#,
        "refused E3 6\n",
    ),
    // An order of no field, and a dimension above the limit.
    (
        r#"{"version":1,"scalars":6,"complex":{"kind":"lefschetz","cells":[["a",16]],"incidences":[]},"field":{"kind":"whole","parts":[]}}"#,
        "refused E3 6\n",
    ),
    // A dimension above the limit.
    (
        r#"{"version":1,"scalars":2,"complex":{"kind":"lefschetz","cells":[["a",16]],"incidences":[]},"field":{"kind":"whole","parts":[]}}"#,
        "refused E4 4 16\n",
    ),
    // A dimension above the limit, and a label without bytes.
    (
        r#"{"version":1,"scalars":2,"complex":{"kind":"lefschetz","cells":[["",16]],"incidences":[]},"field":{"kind":"whole","parts":[]}}"#,
        "refused E4 4 16\n",
    ),
    // A long label.
    (
        r#"{"version":1,"scalars":2,"complex":{"kind":"lefschetz","cells":[["aaaaaaaaaaaaaaaaaaaaaaaaaaaaaaaaaaaaaaaaaaaaaaaaaaaaaaaaaaaaaaaaa",0]],
            "incidences":[]},"field":{"kind":"whole","parts":[]}}"#,
        "refused E4 5 65\n",
    ),
    // A label without bytes.
    (
        r#"{"version":1,"scalars":2,"complex":{"kind":"lefschetz","cells":[["",0]],"incidences":[]},"field":{"kind":"whole","parts":[]}}"#,
        "refused E5 0\n",
    ),
    // Two labels without bytes.
    (
        r#"{"version":1,"scalars":2,"complex":{"kind":"lefschetz","cells":[["",0],["",0]],"incidences":[]},"field":{"kind":"whole","parts":[]}}"#,
        "refused E5 0\n",
    ),
    // A blank in the second label.
    (
        r#"{"version":1,"scalars":2,"complex":{"kind":"lefschetz","cells":[["a",0],["a b",0]],
            "incidences":[]},"field":{"kind":"whole","parts":[]}}"#,
        "refused E5 1\n",
    ),
    // A long name.
    (
        r#"{"version":1,"scalars":2,"complex":{"kind":"lefschetz","cells":[["a",0],["b",0],["ab",1]],
            "incidences":[[2,0,1],[2,1,1]]},"field":{"kind":"whole","parts":[]},"sets":[["sssssssssssssssssssssssssssssssssssssssssssssssssssssssssssssssss",["zz"]]]}"#,
        "refused E4 5 65\n",
    ),
    // A name with a blank after one with a full stop, and an incidence of no cell.
    (
        r#"{"version":1,"scalars":2,"complex":{"kind":"lefschetz","cells":[["a",0],["b",0],["ab",1]],
            "incidences":[[2,0,1],[9,1,1]]},"field":{"kind":"whole","parts":[]},"sets":[["s.t",[]],["s t",[]]]}"#,
        "refused E5 4\n",
    ),
    // A bad name, and a bad label.
    (
        r#"{"version":1,"scalars":2,"complex":{"kind":"lefschetz","cells":[["a",0],["",0],["ab",1]],
            "incidences":[[2,0,1],[2,1,1]]},"field":{"kind":"whole","parts":[]},"sets":[["",[]]]}"#,
        "refused E5 1\n",
    ),
    // Equal labels.
    (
        r#"{"version":1,"scalars":2,"complex":{"kind":"lefschetz","cells":[["a",0],["a",0]],
            "incidences":[]},"field":{"kind":"whole","parts":[]}}"#,
        "refused E6 0 1\n",
    ),
    // Equal labels, and an incidence of no cell.
    (
        r#"{"version":1,"scalars":2,"complex":{"kind":"lefschetz","cells":[["a",0],["a",0]],
            "incidences":[[9,0,1]]},"field":{"kind":"whole","parts":[]}}"#,
        "refused E6 0 1\n",
    ),
    // An incidence of no cell.
    (
        r#"{"version":1,"scalars":2,"complex":{"kind":"lefschetz","cells":[["a",0],["b",0],["ab",1]],
            "incidences":[[2,9,1]]},"field":{"kind":"whole","parts":[]}}"#,
        "refused E7 0 1\n",
    ),
    // An incidence of two vertices.
    (
        r#"{"version":1,"scalars":2,"complex":{"kind":"lefschetz","cells":[["a",0],["b",0],["ab",1]],
            "incidences":[[0,1,1]]},"field":{"kind":"whole","parts":[]}}"#,
        "refused E7 0 2\n",
    ),
    // An incidence upside down.
    (
        r#"{"version":1,"scalars":2,"complex":{"kind":"lefschetz","cells":[["a",0],["b",0],["ab",1]],
            "incidences":[[0,2,1]]},"field":{"kind":"whole","parts":[]}}"#,
        "refused E7 0 2\n",
    ),
    // A value that is zero over two elements.
    (
        r#"{"version":1,"scalars":2,"complex":{"kind":"lefschetz","cells":[["v",0],["e",1],["f",2]],
            "incidences":[[2,1,2]]},"field":{"kind":"whole","parts":[]}}"#,
        "refused E7 0 3\n",
    ),
    // An incidence that stood before.
    (
        r#"{"version":1,"scalars":2,"complex":{"kind":"lefschetz","cells":[["a",0],["b",0],["ab",1]],
            "incidences":[[2,0,1],[2,0,1]]},"field":{"kind":"whole","parts":[]}}"#,
        "refused E7 1 4\n",
    ),
    // A square with an incidence too few, and one of two vertices.
    (
        r#"{"version":1,"scalars":2,"complex":{"kind":"lefschetz","cells":[["p",0],["q",0],["r",0],["s",0],["pq",1],["qr",1],["rs",1],["sp",1],["f",2]],
            "incidences":[[4,0,1],[5,1,1],[5,2,1],[6,2,1],[6,3,1],[7,3,1],[7,0,1],[8,4,1],[8,5,1],[8,6,1],[8,7,1],[0,0,1]]},
            "field":{"kind":"whole","parts":[]}}"#,
        "refused E7 11 2\n",
    ),
    // A square with an incidence too few.
    (
        r#"{"version":1,"scalars":2,"complex":{"kind":"lefschetz","cells":[["p",0],["q",0],["r",0],["s",0],["pq",1],["qr",1],["rs",1],["sp",1],["f",2]],
            "incidences":[[4,0,1],[5,1,1],[5,2,1],[6,2,1],[6,3,1],[7,3,1],[7,0,1],[8,4,1],[8,5,1],[8,6,1],[8,7,1]]},
            "field":{"kind":"whole","parts":[]}}"#,
        "refused E9 8 1\n",
    ),
    // The same, and a part of no cell.
    (
        r#"{"version":1,"scalars":2,"complex":{"kind":"lefschetz","cells":[["p",0],["q",0],["r",0],["s",0],["pq",1],["qr",1],["rs",1],["sp",1],["f",2]],
            "incidences":[[4,0,1],[5,1,1],[5,2,1],[6,2,1],[6,3,1],[7,3,1],[7,0,1],[8,4,1],[8,5,1],[8,6,1],[8,7,1]]},
            "field":{"kind":"whole","parts":[["zz"]]}}"#,
        "refused E9 8 1\n",
    ),
    // A label that no cell has, and a cell that stood earlier.
    (
        r#"{"version":1,"scalars":2,"complex":{"kind":"lefschetz","cells":[["a",0],["b",0],["ab",1]],
            "incidences":[[2,0,1],[2,1,1]]},"field":{"kind":"whole","parts":[["a","zz"],["a"]]}}"#,
        "refused E10 0 1\n",
    ),
    // A label of a named set that no cell has.
    (
        r#"{"version":1,"scalars":2,"complex":{"kind":"lefschetz","cells":[["a",0],["b",0],["ab",1]],
            "incidences":[[2,0,1],[2,1,1]]},"field":{"kind":"whole","parts":[]},"sets":[["s",["zz"]]]}"#,
        "refused E10 0 0\n",
    ),
    // The same behind parts, and a cell that stood earlier.
    (
        r#"{"version":1,"scalars":2,"complex":{"kind":"lefschetz","cells":[["a",0],["b",0],["ab",1]],
            "incidences":[[2,0,1],[2,1,1]]},"field":{"kind":"whole","parts":[["a","a"],["b"]]},"sets":[["r",["a"]],["s",["a","zz"]]]}"#,
        "refused E10 3 1\n",
    ),
    // A cell that stood earlier.
    (
        r#"{"version":1,"scalars":2,"complex":{"kind":"lefschetz","cells":[["a",0],["b",0],["ab",1]],
            "incidences":[[2,0,1],[2,1,1]]},"field":{"kind":"whole","parts":[["a","ab"],["a"]]}}"#,
        "refused E11 1 0\n",
    ),
    // A cell that stood earlier, and an empty part.
    (
        r#"{"version":1,"scalars":2,"complex":{"kind":"lefschetz","cells":[["a",0],["b",0],["ab",1]],
            "incidences":[[2,0,1],[2,1,1]]},"field":{"kind":"whole","parts":[["a","a"],[]]}}"#,
        "refused E11 0 1\n",
    ),
    // An empty part.
    (
        r#"{"version":1,"scalars":2,"complex":{"kind":"lefschetz","cells":[["a",0],["b",0],["ab",1]],
            "incidences":[[2,0,1],[2,1,1]]},"field":{"kind":"whole","parts":[["a","ab"],[]]}}"#,
        "refused E12 1\n",
    ),
    // An empty part after one with a gap.
    (
        r#"{"version":1,"scalars":2,"complex":{"kind":"lefschetz","cells":[["a",0],["b",0],["c",0],["ab",1],["bc",1],["ca",1],["abc",2]],
            "incidences":[[3,0,1],[3,1,1],[4,1,1],[4,2,1],[5,2,1],[5,0,1],[6,3,1],[6,4,1],[6,5,1]]},
            "field":{"kind":"whole","parts":[["a","abc"],[]]}}"#,
        "refused E12 1\n",
    ),
    // An empty part of a hull, in which a cell stands twice.
    (
        r#"{"version":1,"scalars":2,"complex":{"kind":"lefschetz","cells":[["a",0],["b",0],["c",0],["ab",1],["bc",1],["ca",1],["abc",2]],
            "incidences":[[3,0,1],[3,1,1],[4,1,1],[4,2,1],[5,2,1],[5,0,1],[6,3,1],[6,4,1],[6,5,1]]},
            "field":{"kind":"hull","parts":[["a","a"],[]]}}"#,
        "refused E12 1\n",
    ),
    // A part with a gap.
    (
        r#"{"version":1,"scalars":2,"complex":{"kind":"lefschetz","cells":[["a",0],["b",0],["c",0],["ab",1],["bc",1],["ca",1],["abc",2]],
            "incidences":[[3,0,1],[3,1,1],[4,1,1],[4,2,1],[5,2,1],[5,0,1],[6,3,1],[6,4,1],[6,5,1]]},
            "field":{"kind":"whole","parts":[["a","abc"]]}}"#,
        "refused E13 0 6 3 0\n",
    ),
    // A part with a gap after one without.
    (
        r#"{"version":1,"scalars":2,"complex":{"kind":"lefschetz","cells":[["a",0],["b",0],["c",0],["ab",1],["bc",1],["ca",1],["abc",2]],
            "incidences":[[3,0,1],[3,1,1],[4,1,1],[4,2,1],[5,2,1],[5,0,1],[6,3,1],[6,4,1],[6,5,1]]},
            "field":{"kind":"whole","parts":[["b","bc"],["abc","a"]]}}"#,
        "refused E13 1 6 3 0\n",
    ),
];
