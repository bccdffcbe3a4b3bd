ghost use Rattle.std.specs.Prelude.{IfOk};
ghost use Rattle.conley_faces.specs.Face.{IsCellList};

use crate::homology_tests::homology_of;
use conley_field::PrimeField;
use conley_fixtures::complex_of;
use conley_homology::Homology;
use conley_lefschetz::Complex;
use std::alloc::{AllocError, Global};
use std::test::Fail;

/// A triangulated surface: how many vertices it has, and the vertices of each triangle, ascending.
struct Surface {
    vertices: u32,
    triangles: &'static [(u32, u32, u32)],
}

/// The seven vertices of Möbius: every two are joined.
const TORUS: Surface = Surface {
    vertices: 7,
    triangles: &[
        (0, 1, 3),
        (1, 2, 4),
        (2, 3, 5),
        (3, 4, 6),
        (0, 4, 5),
        (1, 5, 6),
        (0, 2, 6),
        (0, 2, 3),
        (1, 3, 4),
        (2, 4, 5),
        (3, 5, 6),
        (0, 4, 6),
        (0, 1, 5),
        (1, 2, 6),
    ],
};

/// A grid of three by three vertices, closed with a turn in one direction.
const KLEIN_BOTTLE: Surface = Surface {
    vertices: 9,
    triangles: &[
        (0, 3, 4),
        (0, 1, 4),
        (1, 4, 5),
        (1, 2, 5),
        (2, 3, 5),
        (0, 2, 3),
        (3, 6, 7),
        (3, 4, 7),
        (4, 7, 8),
        (4, 5, 8),
        (5, 6, 8),
        (3, 5, 6),
        (0, 2, 6),
        (2, 6, 7),
        (1, 2, 7),
        (1, 7, 8),
        (0, 1, 8),
        (0, 6, 8),
    ],
};

/// Half of an icosahedron: six vertices, every two joined.
const PROJECTIVE_PLANE: Surface = Surface {
    vertices: 6,
    triangles: &[
        (0, 1, 2),
        (0, 2, 3),
        (0, 3, 4),
        (0, 4, 5),
        (0, 1, 5),
        (1, 2, 4),
        (2, 3, 5),
        (1, 3, 4),
        (2, 4, 5),
        (1, 3, 5),
    ],
};

/// The ends of the three edges of a triangle, and the codes of their incidences with it over a field with so many elements.
fn sides(triangle: &(u32, u32, u32), minus: u8) -> [(u32, u32, u8); 3] {
    let (a, b, c) = *triangle;
    [(a, b, 1), (a, c, minus), (b, c, 1)]
}

/// The number of an edge among the edges.
fn number_of(edges: &[(u32, u32)], a: u32, b: u32) -> Option<u32> {
    let mut number: u32 = 0;
    for edge in edges {
        if edge.0 == a && edge.1 == b {
            return Some(number);
        }
        number = number.wrapping_add(1);
    }
    None
}

/// The edges of the triangles, each once.
fn edges_of(alloc: Global, surface: &Surface) -> Result<Vec<(u32, u32)>, AllocError> {
    let mut edges = Vec::new(alloc);
    for triangle in surface.triangles {
        for (a, b, _) in sides(triangle, 1) {
            if number_of(&edges, a, b).is_none() {
                edges.push((a, b))?;
            }
        }
    }
    Ok(edges)
}

/// Vertices, then edges, then triangles: each edge with its ends, and each triangle with its edges, by ascending orientation.
fn incidences_of(
    alloc: Global,
    surface: &Surface,
    edges: &[(u32, u32)],
    minus: u8,
) -> Result<Vec<(u32, u32, u8)>, AllocError> {
    let mut incidences = Vec::new(alloc);
    let mut cell = surface.vertices;
    for (a, b) in edges {
        incidences.push((cell, *a, minus))?;
        incidences.push((cell, *b, 1))?;
        cell = cell.wrapping_add(1);
    }
    for triangle in surface.triangles {
        for (a, b, code) in sides(triangle, minus) {
            let edge = number_of(edges, a, b).unwrap_or(0);
            incidences.push((cell, surface.vertices.wrapping_add(edge), code))?;
        }
        cell = cell.wrapping_add(1);
    }
    Ok(incidences)
}

/// The numbers of the cells as labels.
fn labels_of(alloc: Global, dims: &[u8]) -> Result<Vec<String>, AllocError> {
    let mut labels = Vec::new(alloc);
    let mut digits = itoa::Buffer::new();
    for cell in 0..dims.len() {
        labels.push(String::from_str(alloc, digits.format(cell))?)?;
    }
    Ok(labels)
}

/// The dimensions of the vertices, the edges and the triangles.
fn dims_of(alloc: Global, surface: &Surface, edges: usize) -> Result<Vec<u8>, AllocError> {
    let mut dims = Vec::new(alloc);
    dims.resize(surface.vertices as usize, 0)?;
    dims.resize(dims.len().saturating_add(edges), 1)?;
    dims.resize(dims.len().saturating_add(surface.triangles.len()), 2)?;
    Ok(dims)
}

/// The complex of a surface over a field with so many elements.
fn complex_over(alloc: Global, surface: &Surface, order: u8) -> Result<Complex<PrimeField>, Fail> {
    let field = PrimeField::of(order as u32).ok_or("a prime of the table")?;
    let edges = edges_of(alloc, surface)?;
    let incidences = incidences_of(alloc, surface, &edges, order.wrapping_sub(1))?;
    let dims = dims_of(alloc, surface, edges.len())?;
    let labels = labels_of(alloc, &dims)?;
    Ok(complex_of(alloc, field, labels, dims, &incidences)??)
}

/// All cells of a complex.
fn all_cells(alloc: Global, complex: &Complex<PrimeField>) -> Result<Vec<u32>, AllocError>
    ensures { IfOk result (λ cells. IsCellList complex.now.1.faces cells.items) }
{
    let mut cells = Vec::new(alloc);
    for cell in 0..complex.faces().count() as u32 {
        cells.push(cell)?;
    }
    Ok(cells)
}

/// The homology of a surface over a field with so many elements.
fn homology_over(alloc: Global, surface: &Surface, order: u8) -> Result<Homology, Fail> {
    let complex = complex_over(alloc, surface, order)?;
    let cells = all_cells(alloc, &complex)?;
    homology_of(alloc, &complex, &cells)
}

/// Surfaces, orders of fields, and numbers of textbooks.
const NUMBERS: [(&Surface, u8, [u32; 3]); 6] = [
    (&TORUS, 2, [1, 2, 1]),
    (&TORUS, 3, [1, 2, 1]),
    (&KLEIN_BOTTLE, 2, [1, 2, 1]),
    (&KLEIN_BOTTLE, 3, [1, 1, 0]),
    (&PROJECTIVE_PLANE, 2, [1, 1, 1]),
    (&PROJECTIVE_PLANE, 3, [1, 0, 0]),
];

#[test]
fn surfaces_have_the_numbers_of_textbooks(rt: HostRuntime) -> Result<(), Fail> {
    for (surface, order, numbers) in &NUMBERS {
        let homology = homology_over(rt.alloc(), surface, *order)?;
        assert!(rt; homology.numbers.as_slice() == numbers.as_slice());
    }
    Ok(())
}
