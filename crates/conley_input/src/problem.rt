//! A problem from the bytes of a file.

ghost use Rattle.std.specs.Prelude.{◌≡◌, Some, None, Ok, Err, IfOk, IsErrOf, length};
ghost use Rattle.serde_json.specs.View.{view};
ghost use Rattle.conley_json.specs.Json.{json_of};
ghost use Rattle.conley_input.specs.Meaning.{file_of};
ghost use Rattle.conley_input.specs.Problem.{form_of, Reads, Refuses, ReadsFile, IsSound};
ghost use Rattle.conley_input.specs.Refusals.{IsFirstRefusal};
ghost use Rattle.conley_input.specs.ProblemMeaning.{meaning_of};

use crate::complex::read_complex;
use crate::error::{FileFault, InputError};
use crate::field::read_field;
use crate::file::{FileError, ProblemFile};
use crate::parts::read_lists;
use crate::sets::{NamedSet, read_sets};
use conley_field::AnyField;
use conley_json::{JsonError, read_json};
use conley_lefschetz::Complex;
use conley_mvf::Partition;
use serde_json::Value;
use std::alloc::Global;

/// A complex over a prime field, the parts of its cells, and named sets of cells in the order of the file.
/// The parts of a field that is given whole are those that the file lists, and one for each other cell. Those of a hull are the finest ones
/// that are locally closed and in which the cells of each listed part lie together.
#[derive(Drop)]
pub struct Problem {
    pub complex: Complex<AnyField>,
    pub partition: Partition,
    pub sets: Vec<NamedSet>,
}

/// The bytes as a JSON value.
fn read_value(alloc: Global, bytes: &[u8]) -> Result<Value, InputError>
    ensures ok { IfOk result (λ value. json_of bytes.now ≡ Some (view value)) }
    ensures err { (fault : _) → IsErrOf result (InputError.Bad fault) → (fault ≡ FileFault.NotJson) × (json_of bytes.now ≡ None) }
{
    match read_json(alloc, bytes) {
        Ok(value) => Ok(value),
        Err(JsonError::NotJson) => Err(InputError::Bad(FileFault::NotJson)),
        Err(JsonError::NoMemory) => Err(InputError::NoMemory),
    }
}

/// What the bytes list, or the refusal of their form.
fn read_file(alloc: Global, bytes: &[u8]) -> Result<ProblemFile, InputError>
    ensures ok { IfOk result (λ file. form_of bytes.now ≡ Ok (file_of file)) }
    ensures count { IfOk result (λ file. length file.sets.names.items ≡ length file.sets.lists.items) }
    ensures err { (fault : _) → IsErrOf result (InputError.Bad fault) → form_of bytes.now ≡ Err fault }
{
    let value = read_value(alloc, bytes)?;
    match ProblemFile::read(alloc, &value) {
        Ok(file) => Ok(file),
        Err(FileError::Member(number)) => Err(InputError::Bad(FileFault::BadShape(number))),
        Err(FileError::NoMemory) => Err(InputError::NoMemory),
    }
}

/// The problem that a file stands for, or its first refusal.
fn build(alloc: Global, file: ProblemFile) -> Result<Problem, InputError>
    requires { length file.sets.names.items ≡ length file.sets.lists.items }
    ensures ok { IfOk result (λ problem. ReadsFile (file_of file) (meaning_of problem)) }
    ensures sound { IfOk result (λ problem. IsSound (meaning_of problem)) }
    ensures err { (fault : _) → IsErrOf result (InputError.Bad fault) → IsFirstRefusal (file_of file) fault }
{
    let (complex, field, listed) = read_complex(alloc, file)?;
    let (parts, cells) = read_lists(alloc, &complex, field.parts, listed.lists)?;
    let partition = read_field(alloc, &complex, field.is_hull, &parts)?;
    let sets = read_sets(alloc, &listed.names, &cells)?;
    let _laws = complex.count();
    let _numbers = partition.count();
    Ok(Problem {
        complex,
        partition,
        sets,
    })
}

impl Problem {
    /// The problem that the bytes of a file stand for. `Bad` gives the first refusal of the file, with its place; `NoMemory` may come at any time.
    pub fn from_json(alloc: Global, bytes: &[u8]) -> Result<Self, InputError>
        ensures ok { IfOk result (λ problem. Reads bytes.now (meaning_of problem)) }
        ensures sound { IfOk result (λ problem. IsSound (meaning_of problem)) }
        ensures err { (fault : _) → IsErrOf result (InputError.Bad fault) → Refuses bytes.now fault }
    {
        let file = read_file(alloc, bytes)?;
        build(alloc, file)
    }
}
