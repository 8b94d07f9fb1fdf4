ghost use Rattle.std.specs.Prelude.{◌≡◌, IfOk, IfSome};

use crate::fields::Fields;
use document_keys::NoMemory;
use std::alloc::Global;
use std::marker::Model;
use std::rc::Rc;

/// Fields that several hold together without a copy, as a map and its copies do. Contracts see them as the fields.
#[cycle(value)]
#[derive(Debug, Drop)]
pub struct SharedFields {
    fields: Rc<Fields>,
}

impl Model for SharedFields {
    ghost use Rattle.value_model.specs.Codes.{entries_code, shared_size};
    ghost use Rattle.value_model.specs.Data.{Entries};

    ghost Value = { Entries };

    ghost coded = { entries_code };

    ghost view = { λ shared. shared.fields.value };

    ghost size = { shared_size };

    ghost use Rattle.std.proofs.Common.{arith};

    ghost size_decreases = { λ shared holds. omega arith };
}

impl SharedFields {
    ghost use Rattle.std.specs.Borrow.{LendsIf, sem};
    ghost use Rattle.value_model.specs.contracts.fields.Fields as fields;
    ghost use Rattle.value_model.specs.contracts.shared_fields.SharedFields as shared;

    /// The fields, which it takes over.
    ///
    /// # Errors
    /// `NoMemory`
    pub fn new(alloc: Global, fields: Fields) -> Result<SharedFields, NoMemory>
        ensures { IfOk result (λ shared. shared ≡ fields) }
    {
        match Rc::new(alloc, fields) {
            Ok(fields) => Ok(SharedFields { fields }),
            Err(_) => Err(NoMemory),
        }
    }

    /// The fields, lent.
    pub fn as_fields(&self) -> &Fields
        ensures { result.now ≡ self.now }
    {
        self.fields.as_ref()
    }

    /// The same fields for one more holder. Nothing is copied.
    ///
    /// # Errors
    /// `NoMemory` where there are more holders than can be counted.
    pub fn share(&self) -> Result<SharedFields, NoMemory>
        ensures { IfOk result (λ shared. shared ≡ self.now) }
    {
        match self.fields.clone() {
            Ok(fields) => Ok(SharedFields { fields }),
            Err(_) => Err(NoMemory),
        }
    }

    /// The fields, to own: taken out where nobody else holds them, and else copied.
    ///
    /// # Errors
    /// `NoMemory`
    pub fn into_fields(self, alloc: Global) -> Result<Fields, NoMemory>
        ensures { IfOk result (λ fields. fields ≡ self) }
    {
        match Rc::try_unwrap(self.fields) {
            Ok(fields) => Ok(fields),
            Err(fields) => fields.as_ref().copy(alloc),
        }
    }

    /// The fields to change; `None` where others may hold them too.
    pub fn alone(&mut self) -> Option<&mut Fields>
        ensures* writes_back { sem 𝓛
            (LendsIf shared.the_row fields.the_row self.entry result (λ w. w) self.old) }
        ensures value { IfSome result (λ fields. fields.now ≡ self.old) }
    {
        Rc::get_mut(&mut self.fields)
    }
}
