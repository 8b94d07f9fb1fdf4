ghost use Rattle.std.specs.Prelude.{◌≡◌, ◌≢◌, ◌↔◌, ℕ, List, [], ◌∷◌, length, codes, IsTrue, IfOk, IfErr, OnOk, option_map};
ghost use Rattle.std.specs.String.{string_bytes};
ghost use Rattle.std.specs.List.{All, Contains, slice_get};
ghost use Rattle.document_keys.specs.Names.{HasNameLength, IsReserved};
ghost use Rattle.document_keys.specs.Paths.{SpellsPath, printed_path, IsFieldName, HasNameFault, IsFieldPath, HasNamesFault, HasPathFault};
ghost use Rattle.document_keys.specs.Order.{Ranks};

use crate::faults::{FieldFault, NoMemory};
use crate::segment::{has_name_length, is_reserved};
use crate::sequence::Replicate;
use crate::spelling::{print_name, read_names};
use crate::text::Text;
use std::alloc::Global;
use std::cmp::Ordering;
use std::marker::Model;

/// A path of field names from the outermost in. There is at least one, each has 1 to 1,500 bytes, and none is of the
/// form `__.*__`, but that `__name__` may stand by itself. Contracts see it as the list of its names.
#[derive(Debug, Drop)]
pub struct FieldPath {
    names: Vec<Text>,
}

impl Model for FieldPath {
    ghost use Rattle.std.specs.Prelude.{List, ℕ};
    ghost use Rattle.document_keys.specs.Paths.{IsFieldPath};

    ghost Value = { List (List ℕ) };

    ghost view = { λ path. path.names.items };

    ghost invariant = { λ path. IsFieldPath path.names.items };
}

fn all_have_name_length(names: &[Text]) -> bool
    ensures { IsTrue result ↔ All HasNameLength names.now }
{
    for name in names {
        if !has_name_length(name.as_str()) {
            return false;
        }
    }
    true
}

fn some_is_reserved(names: &[Text]) -> bool
    ensures { IsTrue result ↔ ((name : List ℕ) × Contains names.now name × IsReserved name) }
{
    for name in names {
        if is_reserved(name.as_str()) {
            return true;
        }
    }
    false
}

/// Whether the names are `__name__` by itself.
fn is_document_name(names: &[Text]) -> bool
    ensures { IsTrue result ↔ (names.now ≡ codes "__name__" ∷ []) }
{
    match names {
        [name] => name.as_str() == "__name__",
        _ => false,
    }
}

/// Whether the text is the name of a field.
///
/// # Errors
/// `BadPath` where it doesn't have 1 to 1,500 bytes, else `ReservedField` where it is of the form `__.*__`.
pub fn check_field_name(name: &str) -> Result<(), FieldFault>
    ensures name { OnOk result (IsFieldName name.now) }
    ensures fault { IfErr result (λ fault. HasNameFault name.now fault) }
{
    if !has_name_length(name) {
        return Err(FieldFault::BadPath);
    }
    if is_reserved(name) {
        return Err(FieldFault::ReservedField);
    }
    Ok(())
}

impl FieldPath {
    /// The path of these names.
    ///
    /// # Errors
    /// `BadPath` where there is none or one doesn't have 1 to 1,500 bytes, else `ReservedField` where one is of the form
    /// `__.*__`, unless they are `__name__` by itself.
    pub fn from_names(names: Vec<Text>) -> Result<FieldPath, FieldFault>
        ensures path { IfOk result (λ path. (path ≡ names.items) × IsFieldPath names.items) }
        ensures fault { IfErr result (λ fault. HasNamesFault names.items fault) }
    {
        if names.is_empty() || !all_have_name_length(names.as_slice()) {
            return Err(FieldFault::BadPath);
        }
        if !is_document_name(names.as_slice()) && some_is_reserved(names.as_slice()) {
            return Err(FieldFault::ReservedField);
        }
        Ok(FieldPath { names })
    }

    /// The path `__name__`, which stands for the document's own name.
    ///
    /// # Errors
    /// `NoMemory`
    pub fn document_name(alloc: Global) -> Result<FieldPath, NoMemory>
        ensures { IfOk result (λ path. path ≡ codes "__name__" ∷ []) }
    {
        let mut names = Vec::with_capacity(alloc, 1)?;
        names.push(Text::from_str(alloc, "__name__")?)?;
        Ok(FieldPath { names })
    }

    /// The path that the text spells: its names joined by `.`, each plain or between backticks.
    ///
    /// # Errors
    /// `BadPath` where the text isn't of that form or a name doesn't have 1 to 1,500 bytes, else `ReservedField` where a
    /// name is of the form `__.*__`, unless the path is `__name__` by itself; or `NoMemory`.
    pub fn read(alloc: Global, text: &str) -> Result<FieldPath, FieldFault>
        ensures path { IfOk result (λ path. IsFieldPath path × SpellsPath text.now path) }
        ensures fault { IfErr result (λ fault. HasPathFault text.now fault) }
    {
        let names = read_names(alloc, text)?;
        FieldPath::from_names(names)
    }

    /// How many names the text spells, joined by `.`, each plain or between backticks, whatever their length.
    ///
    /// # Errors
    /// `BadPath` where the text isn't of that form, or `NoMemory`.
    pub fn count(alloc: Global, text: &str) -> Result<u64, FieldFault>
        ensures count { IfOk result (λ count. (names : List (List ℕ))
            × (SpellsPath text.now names × (length names ≡ count))) }
        ensures fault { IfErr result (λ fault. fault ≢ FieldFault.NoMemory
            → (names : List (List ℕ)) → ¬ (SpellsPath text.now names)) }
    {
        let names = read_names(alloc, text)?;
        Ok(names.len() as u64)
    }

    /// Whether it is the path `__name__`, which stands for the document's own name.
    pub fn is_document_name(&self) -> bool
        ensures { IsTrue result ↔ (self.now ≡ codes "__name__" ∷ []) }
    {
        is_document_name(self.names.as_slice())
    }

    /// The path's text, in which a name stands between backticks only where it must.
    ///
    /// # Errors
    /// `NoMemory`
    pub fn print(&self, alloc: Global) -> Result<String, NoMemory>
        ensures { IfOk result (λ text. string_bytes text ≡ printed_path self.now) }
    {
        let mut text = String::new(alloc);
        for (i, name) in self.names.iter().enumerate() {
            if i > 0 {
                text.push('.')?;
            }
            print_name(&mut text, name.as_str())?;
        }
        Ok(text)
    }

    /// The order of paths: the first name that differs decides by its bytes, and a front comes first.
    pub fn compare(&self, other: &FieldPath) -> Ordering
        ensures { Ranks result self.now other.now }
    {
        self.names.as_slice().cmp(other.names.as_slice())
    }

    /// The number of names.
    pub fn len(&self) -> u64
        ensures count { result ≡ length self.now }
        ensures path { IsFieldPath self.now }
    {
        self.names.len() as u64
    }

    /// The name at the index, from 0, or `None` past the last.
    pub fn segment(&self, index: u64) -> Option<&str>
        ensures { option_map (λ name. name.now) result ≡ slice_get self.now index }
    {
        let name = self.names.get(index as usize)?;
        Some(name.as_str())
    }

    /// A copy.
    ///
    /// # Errors
    /// `NoMemory`
    pub fn copy(&self, alloc: Global) -> Result<FieldPath, NoMemory>
        ensures { IfOk result (λ path. path ≡ self.now) }
    {
        let mut names = Vec::with_capacity(alloc, self.names.len())?;
        for name in &self.names {
            names.push(name.copy(alloc)?)?;
        }
        Ok(FieldPath { names })
    }
}

impl Replicate for FieldPath {
    fn replicate(&self, alloc: Global) -> Result<FieldPath, NoMemory> {
        self.copy(alloc)
    }
}

impl PartialEq for FieldPath {
    ghost use Rattle.std.specs.Cmp.{partial_equiv_from_equiv};
    ghost use Rattle.std.specs.Cmp.Lexicographic.{pointwise, lists_equiv, nat_list_eq_equiv};
    ghost use Rattle.std.specs.Prelude.{nat_eq};

    ghost eq = { pointwise (pointwise nat_eq) };

    ghost laws = { partial_equiv_from_equiv (lists_equiv nat_list_eq_equiv) };

    fn eq(&self, other: &FieldPath) -> bool {
        self.names.as_slice() == other.names.as_slice()
    }
}

impl Eq for FieldPath {
    ghost use Rattle.std.specs.Cmp.Lexicographic.{lists_equiv, nat_list_eq_equiv};

    ghost laws = { lists_equiv nat_list_eq_equiv };
}

impl PartialOrd for FieldPath {
    ghost use Rattle.std.specs.Cmp.{po};
    ghost use Rattle.std.specs.Cmp.Lexicographic.{slice_cmp, lists_total, lists_ties, nat_list_cmp_total, texts_ties};
    ghost use Rattle.std.specs.Ordering.{nat_cmp};
    ghost use Rattle.std.specs.Prelude.{Some};

    ghost partial_cmp = { λ x y. Some (slice_cmp (slice_cmp nat_cmp) x y) };

    ghost laws = { po (lists_total nat_list_cmp_total) (lists_ties (slice_cmp nat_cmp) texts_ties) };

    fn partial_cmp(&self, other: &FieldPath) -> Option<Ordering> {
        Some(self.names.as_slice().cmp(other.names.as_slice()))
    }
}

impl Ord for FieldPath {
    ghost use Rattle.std.specs.Cmp.Lexicographic.{slice_cmp, lists_total, lists_ties, nat_list_cmp_total, texts_ties};
    ghost use Rattle.std.specs.Ordering.{nat_cmp};
    ghost use Rattle.std.specs.Prelude.{refl};

    ghost cmp = { slice_cmp (slice_cmp nat_cmp) };

    ghost total = { lists_total nat_list_cmp_total };

    ghost matches_partial_cmp = { λ x y. refl };

    ghost matches_eq = { lists_ties (slice_cmp nat_cmp) texts_ties };

    fn cmp(&self, other: &FieldPath) -> Ordering {
        self.names.as_slice().cmp(other.names.as_slice())
    }
}
