//! Laws of the definitions.

ghost use Rattle.limbo_resolver.specs.Laws.{ListensStaySound};

/// Limbo listens stay sound, and no id is given twice. Nothing is done when it runs.
pub fn listens_stay_sound()
    ensures { ListensStaySound }
{}
