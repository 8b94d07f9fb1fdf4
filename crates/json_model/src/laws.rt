//! Laws of trees and what they spell. Nothing is done when they run.

ghost use Rattle.json_model.specs.Laws.{ATreeSpellsOnce, FaultsAreOne, FitsWithoutFaults, NoFaultSpells, PrintedFieldsReadBack, ReadAscends};

/// A tree is of the form exactly where it has no fault.
#[tactic(auto, using(crate::proofs::Fitting::clean_fits, crate::proofs::Fitting::fits_clean))]
pub fn fits_without_faults()
    ensures { FitsWithoutFaults }
{}

/// A tree without faults spells a value.
#[tactic(auto, using(crate::proofs::Spelling::no_fault_spells))]
pub fn no_fault_spells()
    ensures { NoFaultSpells }
{}

/// In a tree that is read from a text the names of each object ascend strictly.
#[tactic(auto, using(crate::proofs::ReadAscending::read_ascends))]
pub fn read_ascends()
    ensures { ReadAscends }
{}

/// What fields print reads back as them, where they can be stored and nest at most 20 deep.
pub fn printed_fields_read_back()
    ensures { PrintedFieldsReadBack }
{}

/// A tree has one list of faults at each place, and as the name of a document.
#[tactic(auto, using(crate::proofs::OneList::faults_one, crate::proofs::OneList::name_faults_one))]
pub fn faults_are_one()
    ensures { FaultsAreOne }
{}

/// A tree spells one value at most, and one list of fields, and names one key under a root.
pub fn a_tree_spells_once()
    ensures { ATreeSpellsOnce }
{}
