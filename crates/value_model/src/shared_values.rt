ghost use Rattle.std.specs.Prelude.{◌≡◌, IfOk};

use crate::value::Value;
use document_keys::NoMemory;
use std::alloc::Global;
use std::marker::Model;
use std::rc::Rc;

/// Values that several hold together without a copy, as an array and its copies do. Contracts see them as the list of values.
#[cycle(value)]
#[derive(Debug, Drop)]
pub struct SharedValues {
    values: Rc<Vec<Value>>,
}

impl Model for SharedValues {
    ghost use Rattle.std.specs.Prelude.{List};
    ghost use Rattle.value_model.specs.Data.{Data};
    ghost use Rattle.value_model.specs.Codes.{list_code, list_size};

    ghost Value = { List Data };

    ghost coded = { list_code };

    ghost view = { λ shared. shared.values.value.items };

    ghost size = { list_size };

    ghost use Rattle.std.proofs.Common.{arith};
    ghost use Rattle.value_model.specs.Falls.{most_le};

    ghost size_decreases = { λ shared holds. omega (arith, most_le shared.values.value.items) };
}

impl SharedValues {
    /// The values, which it takes over.
    ///
    /// # Errors
    /// `NoMemory`
    pub fn new(alloc: Global, values: Vec<Value>) -> Result<SharedValues, NoMemory>
        ensures { IfOk result (λ shared. shared ≡ values.items) }
    {
        match Rc::new(alloc, values) {
            Ok(values) => Ok(SharedValues { values }),
            Err(_) => Err(NoMemory),
        }
    }

    /// The values, lent.
    pub fn as_slice(&self) -> &[Value]
        ensures { result.now ≡ self.now }
    {
        self.values.as_ref().as_slice()
    }

    /// The same values for one more holder. Nothing is copied.
    ///
    /// # Errors
    /// `NoMemory` where there are more holders than can be counted.
    pub fn share(&self) -> Result<SharedValues, NoMemory>
        ensures { IfOk result (λ shared. shared ≡ self.now) }
    {
        match self.values.clone() {
            Ok(values) => Ok(SharedValues { values }),
            Err(_) => Err(NoMemory),
        }
    }
}
