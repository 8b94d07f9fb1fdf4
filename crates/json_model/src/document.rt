ghost use Rattle.std.specs.Prelude.{◌≡◌};
ghost use Rattle.json_model.specs.Printed.{state_text as state_text_of};

use value_model::DocState;

/// How a state is printed.
pub fn state_text(state: DocState) -> &'static str
    ensures { result.now ≡ state_text_of state }
{
    match state {
        DocState::Synced => "synced",
        DocState::Pending => "pending",
        DocState::Committed => "committed",
        DocState::Unknown => "unknown",
    }
}
