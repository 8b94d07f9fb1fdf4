use crate::side::Side;
use document_keys::Database;
use std::marker::Model;

/// Whose trees are read: the side that wrote them, and the database that their names are of.
#[derive(Debug, Drop)]
pub struct Setting<'a> {
    pub side: Side,
    pub root: &'a Database,
}

impl<'a> Model for Setting<'a> {
    ghost use Rattle.json_model.specs.Origin.{Origin};

    ghost Value = { Origin };

    ghost view = { λ setting. record { side = setting.side; root = setting.root.now } };
}
