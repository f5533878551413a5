//! The layers of the kit.
ghost use Rattle.std.specs.Prelude.{Some};
ghost use Rattle.refusal.specs.Layers.{layer_name};

use std::fmt;

/// The layer of the kit that refuses.
#[derive(Clone, Copy, PartialEq, Eq, Debug)]
pub enum Layer {
    List,
    Text,
    Card,
    Cipher,
    Digest,
    Deal,
    Source,
    Tray,
}

impl fmt::Display for Layer {
    ghost output = { λ l. Some (layer_name l) };

    fn fmt<W: fmt::Write>(&self, f: &mut fmt::Formatter<W>) -> fmt::Result {
        let name = match self {
            Layer::List => "list",
            Layer::Text => "text",
            Layer::Card => "card",
            Layer::Cipher => "cipher",
            Layer::Digest => "digest",
            Layer::Deal => "deal",
            Layer::Source => "source",
            Layer::Tray => "tray",
        };
        f.write_str(name)
    }
}
