//! Writing the parts of a JSON value, each so that it reads back by its form.

ghost use Rattle.std.specs.Prelude.{◌≡◌, ◌++◌, ◌∷◌, [], Some, IfOk, OnOk, string_bytes};
ghost use Rattle.serde_json.specs.Data.{Data, string};
ghost use Rattle.serde_json.specs.View.{view};
ghost use Rattle.conley_json.specs.Written.{whole, list_as, pair_as, triple_as};

use crate::Form;
use serde_json::Value;
use std::alloc::{AllocError, Global};

/// A type whose values are written as JSON values of their form.
pub trait Written: Form {
    /// The JSON value that is written.
    ghost data_of: { Self → Data };

    fn write(&self, alloc: Global) -> Result<Value, AllocError>
        ensures value { IfOk result (λ v. view v ≡ data_of self.now) }
        ensures reads { IfOk result (λ v. Self.form (view v) ≡ Some (Self.meaning self.now)) };
}

impl Written for String {
    ghost data_of = { λ s. string (string_bytes s) };

    fn write(&self, alloc: Global) -> Result<Value, AllocError> {
        Value::try_from_str(alloc, self.as_str())
    }
}

impl Written for u32 {
    ghost data_of = { whole };

    fn write(&self, _alloc: Global) -> Result<Value, AllocError> {
        let number = *self;
        Ok(Value::from(number))
    }
}

impl Written for u8 {
    ghost data_of = { whole };

    fn write(&self, _alloc: Global) -> Result<Value, AllocError> {
        let number = *self;
        Ok(Value::from(number))
    }
}

impl<T: Written + Drop> Written for Vec<T> {
    ghost data_of = { λ v. list_as T.data_of v.items };

    fn write(&self, alloc: Global) -> Result<Value, AllocError> {
        let mut items = Vec::new(alloc);
        for part in self {
            items.push(part.write(alloc)?)?;
        }
        Ok(Value::Array(items))
    }
}

impl<T: Written + Drop, U: Written + Drop> Written for (T, U) {
    ghost data_of = { pair_as T.data_of U.data_of };

    fn write(&self, alloc: Global) -> Result<Value, AllocError> {
        let mut items = Vec::new(alloc);
        items.push(self.0.write(alloc)?)?;
        items.push(self.1.write(alloc)?)?;
        Ok(Value::Array(items))
    }
}

impl<T: Written + Drop, U: Written + Drop, V: Written + Drop> Written for (T, U, V) {
    ghost data_of = { triple_as T.data_of U.data_of V.data_of };

    fn write(&self, alloc: Global) -> Result<Value, AllocError> {
        let mut items = Vec::new(alloc);
        items.push(self.0.write(alloc)?)?;
        items.push(self.1.write(alloc)?)?;
        items.push(self.2.write(alloc)?)?;
        Ok(Value::Array(items))
    }
}
