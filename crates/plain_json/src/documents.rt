//! The documents of updates, with just a name and fields.

ghost use Rattle.json.specs.Value.{value_view};
ghost use Rattle.value_model.specs.Storable.{IsStorableKey};
ghost use Rattle.json_model.specs.declared.place.Object.TheVariants as objects;
ghost use Rattle.json_model.specs.declared.place.Place.TheVariants as places;
ghost use Rattle.json_model.specs.Faults.{max_nesting};
ghost use Rattle.json_model.specs.Grammar.{SpellsName};
ghost use Rattle.plain_json.specs.Built.{IfBuilt};
ghost use Rattle.plain_json.specs.Trees.{IsBuiltOf, StandsFor};
ghost use Rattle.plain_json.specs.Updates.{IsStoredUpdate, SpellsUpdated};

use crate::room::Tree;
use crate::tree::both_under;
use crate::values::plain_fields;
use document_keys::{DocumentKey, NameFault, NoMemory};
use json_model::{MAX_NESTING, Setting, show_key};
use std::alloc::Global;
use value_model::SharedFields;

/// The key of the document that the tree names.
#[tactic(auto, using(crate::proofs::Updates::named))]
pub(crate) fn plain_key(
    alloc: Global,
    setting: &Setting<'_>,
    tree: &Tree<'_>,
) -> Result<Option<DocumentKey>, NoMemory>
    ensures key { IfBuilt result (λ key. StandsFor (value_view tree.now)
        (λ d. SpellsName setting.now.root d key)) }
    ensures storable { IfBuilt result IsStorableKey }
{
    let Tree::String(name) = tree else {
        return Ok(None);
    };
    match DocumentKey::read(alloc, setting.root, name) {
        Ok(key) => {
            show_key(&key);
            Ok(Some(key))
        }
        Err(NameFault::NoMemory) => Err(NoMemory),
        Err(_) => Ok(None),
    }
}

/// What an update holds.
#[derive(Drop)]
pub(crate) struct Updated {
    pub(crate) key: DocumentKey,
    pub(crate) fields: SharedFields,
}

/// The document that an update holds, with just its name and fields of the plain form.
#[tactic(auto, using(crate::proofs::Updates::document))]
pub(crate) fn plain_document(
    alloc: Global,
    setting: &Setting<'_>,
    tree: &Tree<'_>,
) -> Result<Option<Updated>, NoMemory>
    ensures { IfBuilt result (λ document. StandsFor (value_view tree.now)
        (IsBuiltOf setting.now max_nesting (places.Object objects.Update)
        (SpellsUpdated setting.now.root) IsStoredUpdate document)) }
{
    let Some((fields, name)) = both_under(tree, "fields", "name") else {
        return Ok(None);
    };
    let Some(key) = plain_key(alloc, setting, name)? else {
        return Ok(None);
    };
    let Some(fields) = plain_fields(alloc, setting, MAX_NESTING, fields)? else {
        return Ok(None);
    };
    let fields = SharedFields::new(alloc, fields)?;
    Ok(Some(Updated { key, fields }))
}
