use conley_fixtures::has_labels;
use conley_input::{FileFault, InputError, Problem};
use conley_morse::morse;
use std::alloc::{AllocError, Global};
use std::test::Fail;

/// What a file is refused with.
fn fault_of(alloc: Global, file: &str) -> Option<FileFault> {
    match Problem::from_json(alloc, file.as_bytes()) {
        Err(InputError::Bad(fault)) => Some(fault),
        _ => None,
    }
}

/// Files with a fault, and most with another one that stands behind it.
const REFUSED: [(&str, FileFault); 13] = [
    (
        r#"{"version":1,"scalars":2,"complex":{"kind":"simplicial","vertices":["a","b"],"simplices":[[0,0]]},"field":{"kind":"whole","parts":[]}}"#,
        FileFault::BadSimplex(0),
    ),
    (
        r#"{"version":1,"scalars":2,"complex":{"kind":"cubical","axes":1,"cubes":[[[0,2]]]},"field":{"kind":"whole","parts":[]}}"#,
        FileFault::BadCube(0),
    ),
    (
        r#"{"version":1,"scalars":2,"complex":{"kind":"cubical","axes":0,"cubes":[[[0,2]]]},"field":{"kind":"whole","parts":[]}}"#,
        FileFault::BadAxes(0),
    ),
    (
        r#"{"version":1,"scalars":2,"complex":{"kind":"simplicial","vertices":["a","b"],"simplices":[[0,1],[]]},"field":{"kind":"whole","parts":[]}}"#,
        FileFault::BadSimplex(1),
    ),
    (
        r#"{"version":1,"scalars":4,"complex":{"kind":"simplicial","vertices":["a"],"simplices":[[0,0]]},"field":{"kind":"whole","parts":[]}}"#,
        FileFault::UnknownField(4),
    ),
    (
        r#"{"version":1,"scalars":2,"complex":{"kind":"simplicial","vertices":["a."],"simplices":[[0,1,2,3,4,5,6,7,8,9,10,11,12,13,14,15,16]]},"field":{"kind":"whole","parts":[]}}"#,
        FileFault::TooMany(4, 16),
    ),
    (
        r#"{"version":1,"scalars":2,"complex":{"kind":"simplicial","vertices":["a","b.c"],"simplices":[[0,0]]},"field":{"kind":"whole","parts":[]}}"#,
        FileFault::BadLabel(1),
    ),
    (
        r#"{"version":1,"scalars":2,"complex":{"kind":"simplicial","vertices":["a","a"],"simplices":[[0,0]]},"field":{"kind":"whole","parts":[]}}"#,
        FileFault::DuplicateLabel(0, 1),
    ),
    (
        r#"{"version":1,"scalars":2,"complex":{"kind":"simplicial","vertices":["a","b"],"simplices":[[1,1]]},"field":{"kind":"whole","parts":[["c"]]}}"#,
        FileFault::BadSimplex(0),
    ),
    (
        r#"{"version":1,"scalars":2,"complex":{"kind":"simplicial","vertices":["a","b"],"simplices":[[0,1]]},"field":{"kind":"whole","parts":[["a","b.a"]]}}"#,
        FileFault::UnknownCell(0, 1),
    ),
    (
        r#"{"version":1,"scalars":2,"complex":{"kind":"cubical","axes":1,"cubes":[[[0,1]]]},"field":{"kind":"whole","parts":[["0+"],["1","0+"]]}}"#,
        FileFault::RepeatedCell(1, 1),
    ),
    (
        r#"{"version":1,"scalars":2,"complex":{"kind":"cubical","axes":1,"cubes":[[[0,1]]]},"field":{"kind":"whole","parts":[["0+"],[]]}}"#,
        FileFault::EmptyPart(1),
    ),
    (
        r#"{"version":1,"scalars":2,"complex":{"kind":"simplicial","vertices":["a","b","c"],"simplices":[[0,1,2]]},"field":{"kind":"whole","parts":[["a","a.b.c"]]}}"#,
        FileFault::NotLocallyClosed(0, 6, 3, 0),
    ),
];

#[test]
fn the_first_fault_is_told(rt: HostRuntime) -> Result<(), Fail> {
    for (file, fault) in &REFUSED {
        assert!(rt; fault_of(rt.alloc(), file) == Some(*fault), "{file}");
    }
    Ok(())
}

const INTERVAL: &str =
    r#"{"version":1,"scalars":2,"complex":{"kind":"cubical","axes":1,"cubes":[[[0,1]]]},"field":{"kind":"whole","parts":[]}}"#;

#[test]
fn cells_without_a_part_are_parts(rt: HostRuntime) -> Result<(), Fail> {
    let problem = Problem::from_json(rt.alloc(), INTERVAL.as_bytes())?;
    assert!(rt; has_labels(&problem.complex, &["0", "1", "0+"]) && problem.partition.count() == 3);
    Ok(())
}

/// A triangle, the hull of a vertex with it, and two named sets.
const TRIANGLE: &str =
    r#"{"version":1,"scalars":2,"complex":{"kind":"simplicial","vertices":["a","b","c"],"simplices":[[0,1,2]]},
"field":{"kind":"hull","parts":[["a","a.b.c","a"]]},"sets":[["s",["a.c","b","b"]],["s",[]]]}"#;

/// Whether the named set with this number has this name and these cells.
fn has_set(problem: &Problem, k: usize, name: &str, cells: &[u32]) -> bool {
    match problem.sets.get(k) {
        Some(set) => set.name.as_str() == name && set.cells.as_slice() == cells,
        None => false,
    }
}

#[test]
fn a_cell_that_is_repeated_in_a_named_set_counts_once(rt: HostRuntime) -> Result<(), Fail> {
    let problem = Problem::from_json(rt.alloc(), TRIANGLE.as_bytes())?;
    assert!(rt; problem.partition.count() == 4 && problem.sets.len() == 2);
    assert!(rt; has_set(&problem, 0, "s", &[1, 4]) && has_set(&problem, 1, "s", &[]));
    Ok(())
}

/// A file of no cells with so many named sets.
fn with_sets(alloc: Global, count: usize) -> Result<String, AllocError> {
    let mut file = String::from_str(
        alloc,
        r#"{"version":1,"scalars":2,"complex":{"kind":"cubical","axes":1,"cubes":[]},"field":{"kind":"hull","parts":[]},"sets":[["s",[]]"#,
    )?;
    for _ in 1..count {
        file.push_str(r#",["s",[]]"#)?;
    }
    file.push_str("]}")?;
    Ok(file)
}

#[test]
fn a_file_has_at_most_256_named_sets(rt: HostRuntime) -> Result<(), Fail> {
    let most = with_sets(rt.alloc(), 256)?;
    let more = with_sets(rt.alloc(), 257)?;
    assert!(rt; Problem::from_json(rt.alloc(), most.as_bytes())?.sets.len() == 256);
    assert!(rt; fault_of(rt.alloc(), more.as_str()) == Some(FileFault::TooMany(3, 257)));
    Ok(())
}

/// Whether a file has one Morse set, with these Conley numbers.
fn has_numbers(alloc: Global, file: &str, numbers: &[u32]) -> Result<bool, Fail> {
    let problem = Problem::from_json(alloc, file.as_bytes())?;
    let Ok(found) = morse(alloc, &problem.complex, &problem.partition) else {
        return Err("no Morse sets".into());
    };
    if found.numbers.len() != 1 {
        return Ok(false);
    }
    Ok(found.numbers[0].as_slice() == numbers)
}

/// Seven vertices, every two of them joined, one part.
const TORUS: &str =
    r#"{"version":1,"scalars":2,"complex":{"kind":"simplicial","vertices":["0","1","2","3","4",
"5","6"],"simplices":[[0,1,3],[1,2,4],[2,3,5],[3,4,6],[4,5,0],[5,6,1],[6,0,2],[0,2,3],
[1,3,4],[2,4,5],[3,5,6],[4,6,0],[5,0,1],[6,1,2]]},"field":{"kind":"whole","parts":[["0",
"1","2","3","4","5","6","0.1","0.2","0.3","0.4","0.5","0.6","1.2","1.3","1.4","1.5",
"1.6","2.3","2.4","2.5","2.6","3.4","3.5","3.6","4.5","4.6","5.6","0.1.3","0.1.5",
"0.2.3","0.2.6","0.4.5","0.4.6","1.2.4","1.2.6","1.3.4","1.5.6","2.3.5","2.4.5","3.4.6",
"3.5.6"]]}}"#;

/// The boundary of a simplex with four vertices, one part.
const SPHERE: &str =
    r#"{"version":1,"scalars":5,"complex":{"kind":"simplicial","vertices":["a","b","c","d"],
"simplices":[[0,1,2],[0,1,3],[0,2,3],[1,2,3]]},"field":{"kind":"whole","parts":[["a",
"b","c","d","a.b","a.c","a.d","b.c","b.d","c.d","a.b.c","a.b.d","a.c.d","b.c.d"]]}}"#;

/// A cube with its border, one part.
const SOLID_CUBE: &str = r#"{"version":1,"scalars":5,"complex":{"kind":"cubical",
"axes":3,"cubes":[[[0,1],[0,1],[0,1]]]},"field":{"kind":"whole","parts":[["0,0,0",
"0,0,1","0,0,0+","0,1,0","0,1,1","0,1,0+","0,0+,0","0,0+,1","0,0+,0+","1,0,0","1,0,1",
"1,0,0+","1,1,0","1,1,1","1,1,0+","1,0+,0","1,0+,1","1,0+,0+","0+,0,0","0+,0,1",
"0+,0,0+","0+,1,0","0+,1,1","0+,1,0+","0+,0+,0","0+,0+,1","0+,0+,0+"]]}}"#;

/// A part that is a whole space has the homology of the space.
const SPACES: [(&str, &[u32]); 3] = [
    (TORUS, &[1, 2, 1]),
    (SPHERE, &[1, 0, 1]),
    (SOLID_CUBE, &[1, 0, 0, 0]),
];

#[test]
fn one_part_has_the_numbers_of_its_space(rt: HostRuntime) -> Result<(), Fail> {
    for (file, numbers) in &SPACES {
        assert!(rt; has_numbers(rt.alloc(), file, numbers)?, "{file}");
    }
    Ok(())
}
