//! Where files are fetched from.

ghost use Rattle.std.specs.Prelude.{◌≡◌, ◌⊎◌, ◌<◌, ◌≤◌, [], List, ℕ, length, OnOk, OnErr, IfSome, IsErrOf};
ghost use Rattle.std.specs.Io.{StartsWith};
ghost use Rattle.conley_outside.specs.Faults.{Rose};
ghost use Rattle.conley_outside.specs.Depot.{Files, told, Lacks};

use std::alloc::Global;

/// Why no file was fetched.
#[derive(Clone, Copy, Debug, PartialEq, Eq)]
pub enum FetchError {
    /// A fault of the outside, or no file has the name.
    Failed,
    /// The file has more bytes than it may have.
    TooLong,
    NoMemory,
}

/// Files by name, of this system or of memory.
pub trait Depot {
    /// What the depot tells of its files.
    ghost files: { Self → Files };

    /// How often the outside has failed.
    ghost faults: { Self → ℕ };

    /// Fetches the file of a name into an empty list, if it has at most `limit` bytes.
    /// It takes at most `limit + 1` bytes of the file. After an error the list holds a prefix of the file.
    /// `Failed` is a fault, or no file has the name; `TooLong` comes only without a fault, and after it the list has `limit` bytes.
    fn fetch(
        &mut self,
        alloc: Global,
        name: &str,
        limit: usize,
        into: &mut Vec<u8>,
    ) -> Result<(), FetchError>
        requires { into.old.items ≡ [] }

        ensures same_files { files self.new ≡ files self.old }
        ensures later { faults self.old ≤ faults self.new }

        ensures within { OnOk result (length into.new.items ≤ limit) }
        ensures whole { OnOk result (IfSome (told (files self.old) name.now) (λ bytes. into.new.items ≡ bytes)) }
        ensures prefix { OnErr result (IfSome (told (files self.old) name.now) (λ bytes. StartsWith bytes into.new.items)) }

        ensures failed { IsErrOf result FetchError.Failed →
            Rose (faults self.old) (faults self.new) ⊎ Lacks (files self.old) name.now }
        ensures missing { Lacks (files self.old) name.now →
            (IsErrOf result FetchError.Failed ⊎ IsErrOf result FetchError.NoMemory) × (into.new.items ≡ []) }

        ensures too_long { IsErrOf result FetchError.TooLong →
            (faults self.new ≡ faults self.old) × (length into.new.items ≡ limit)
            × IfSome (told (files self.old) name.now) (λ bytes. limit < length bytes) }
        ensures longer { IfSome (told (files self.old) name.now) (λ bytes. limit < length bytes →
            ¬ Rose (faults self.old) (faults self.new) →
            IsErrOf result FetchError.TooLong ⊎ IsErrOf result FetchError.NoMemory) };
}
