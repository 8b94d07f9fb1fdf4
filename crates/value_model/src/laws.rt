//! Laws of values, their order, and fields. Nothing is done when they run.

ghost use Rattle.value_model.specs.Laws.{ValuesAreOrdered, TiesAreEqual, PendingTimesStand, FieldsAreAMap, PathsHold};
ghost use Rattle.value_model.specs.Same.{SameValuesAreEqual};
ghost use Rattle.value_model.specs.TimeForm.{TimesHaveTheirForm};
ghost use Rattle.value_model.specs.Versions.{TimesAreOrdered};

/// Values are in a strict total order.
pub fn values_are_ordered()
    ensures { ValuesAreOrdered }
{}

/// That neither of two values is before the other is an equivalence, and holds of the same values alone.
pub fn ties_are_equal()
    ensures { TiesAreEqual }
{}

/// A pending time stands after every timestamp and before every text.
pub fn pending_times_stand()
    ensures { PendingTimesStand }
{}

/// Fields are a finite map from names to values.
pub fn fields_are_a_map()
    ensures { FieldsAreAMap }
{}

/// What stands at each path after a change at one path.
pub fn paths_hold()
    ensures { PathsHold }
{}

/// Whether two values are the same is a function.
pub fn same_values_are_equal()
    ensures { SameValuesAreEqual }
{}

/// The two orders of moments are one.
pub fn times_are_ordered()
    ensures { TimesAreOrdered }
{}

/// A text is read as a time exactly where it is of the form.
pub fn times_have_their_form()
    ensures { TimesHaveTheirForm }
{}
