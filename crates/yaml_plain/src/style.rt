//! Where a scalar stands.

ghost use Rattle.std.specs.Prelude.{◌≡◌};
ghost use Rattle.yaml_plain.specs.Bytes.{is_flow};

/// The style of a collection, or of what stands in one (YAML 1.2, chapters 7 and 8).
#[derive(Clone, Copy)]
pub enum Style {
    /// By lines and their columns.
    Block,
    /// Within brackets.
    Flow,
}

impl Style {
    /// Whether it is that of flow.
    pub fn is_flow(self) -> bool
        ensures { result ≡ is_flow self }
    {
        match self {
            Style::Block => false,
            Style::Flow => true,
        }
    }
}
