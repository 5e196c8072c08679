// Where a style sheet comes from.
ghost use Rattle.std.specs.Prelude.{◌≡◌};
ghost use Rattle.node_tree.specs.Origins.{origin_name};

/// Where a style sheet comes from (the protocol's `CSS.StyleSheetOrigin`).
#[derive(Clone, Copy, Debug)]
pub enum Origin {
    UserAgent,
    Regular,
}

impl Origin {
    /// As it stands in messages.
    pub fn as_str(self) -> &'static str
        ensures { result.now ≡ origin_name self }
    {
        match self {
            Origin::UserAgent => "user-agent",
            Origin::Regular => "regular",
        }
    }
}
